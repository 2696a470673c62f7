// The open bits of a listing.
ghost use Rattle.std.specs.Prelude.{◌≡◌, ◌<◌, true, false, length, replicate, IfSome, IfNone, ℕ, slice_index_or, slice_set};
ghost use Rattle.listing.specs.Rule.{deepest as deepest_in, closing};

#[derive(Clone, Copy)]
pub(crate) struct Opens {
    // flag i: bit i is open
    pub(crate) flags: [bool; 64],
}

impl Opens {
    pub(crate) fn none() -> Opens
        ensures { result.flags ≡ replicate 64 false }
    {
        Opens { flags: [false; 64] }
    }

    // The deepest open bit.
    #[tactic(auto, using(crate::proofs::Flags::deepest_is))]
    pub(crate) fn deepest(&self) -> Option<u8>
        ensures value { result ≡ deepest_in self.now.flags }
        ensures below { IfSome result (λ k. k < 64) }
    {
        last_open(&self.flags).map(|bit| bit as u8)
    }

    // Opens a bit; from 64 on there is none.
    pub(crate) fn open(&mut self, bit: u8)
        ensures { self.new.flags ≡ slice_set self.old.flags bit true }
    {
        set(&mut self.flags, bit, true);
    }

    // Closes a bit, if there is one to close.
    pub(crate) fn close(&mut self, deepest: Option<u8>)
        ensures { self.new.flags ≡ closing deepest self.old.flags }
    {
        if let Some(bit) = deepest {
            set(&mut self.flags, bit, false);
        }
    }

    pub(crate) fn is_open(&self, bit: u8) -> bool
        ensures { result ≡ slice_index_or self.now.flags bit false }
    {
        bit < 64 && self.flags[bit as usize]
    }
}

// The last flag that is set.
fn last_open(flags: &[bool; 64]) -> Option<usize>
    ensures below { IfSome result (λ k. k < 64) }
    ensures none { IfNone result ((j : ℕ) → j < 64 → slice_index_or flags.now j false ≡ false) }
    ensures open { IfSome result (λ k. slice_index_or flags.now k false ≡ true) }
    ensures above { IfSome result (λ k. (j : ℕ) → k < j → j < 64 → slice_index_or flags.now j false ≡ false) }
{
    flags.iter().rposition(|open| *open)
}

fn set(flags: &mut [bool; 64], bit: u8, flag: bool)
    ensures { flags.new ≡ slice_set flags.old bit flag }
{
    if bit < 64 {
        flags[bit as usize] = flag;
    }
}
