// The current accumulator: an amount, and a residue of less than one step of it.
ghost use Rattle.std.specs.Prelude.{◌<◌};

#[derive(Clone, Copy, PartialEq, Eq, Debug)]
pub struct Accumulator {
    pub(crate) amount: i16,
    pub(crate) residue: u32,
    ghost small: { residue < 180000 },
}

// One of the two bytes of an amount.
#[derive(Clone, Copy, PartialEq, Eq, Debug)]
pub enum Half {
    High,
    Low,
}
