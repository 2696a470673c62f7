// Why a listing is not begun.
ghost use Rattle.std.specs.Prelude.{◌≡◌};
ghost use Rattle.listing.specs.Rule.{begin_number};

#[derive(Clone, Copy, PartialEq, Eq, Debug)]
pub enum BeginRefusal {
    // the limit is above 128
    LimitTooHigh = 11,
}

impl BeginRefusal {
    // Its number; each set of refusals has its own.
    pub fn number(&self) -> u8
        ensures { result ≡ begin_number self.now }
    {
        *self as u8
    }
}
