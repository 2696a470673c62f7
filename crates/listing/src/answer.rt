// What a pass answers.
ghost use Rattle.std.specs.Prelude.{◌≡◌};
ghost use Rattle.listing.specs.Meaning.{meant};
ghost use Rattle.listing.specs.Rule.{slots as slots_of, pass_number};

use address::Address;

// What a pass came to.
#[derive(Clone, Copy, PartialEq, Eq, Debug)]
pub enum Answer {
    // it read this address, which is right, and listed it
    Found { address: Address },
    // it read this address, which is not right
    Spoilt { address: Address },
    // nothing answered the value told at this bit: the deepest open bit is closed
    ClosedAt { bit: u8 },
    // nothing is on the line: the deepest open bit, if there is one, is closed
    ClosedEmpty,
}

impl Answer {
    // How many slots the pass had.
    pub fn slots(&self) -> u16
        ensures { result ≡ slots_of (meant self.now) }
    {
        match *self {
            Answer::Found { .. } => 200,
            Answer::Spoilt { .. } => 200,
            Answer::ClosedAt { bit } => 3 * bit as u16 + 10,
            Answer::ClosedEmpty => 0,
        }
    }
}

// Why a pass is not made.
#[derive(Clone, Copy, PartialEq, Eq, Debug)]
pub enum PassRefusal {
    // the listing is complete
    Complete = 3,
    // it has as many addresses as its limit
    LimitReached = 4,
}

impl PassRefusal {
    // Its number; each set of refusals has its own.
    pub fn number(&self) -> u8
        ensures { result ≡ pass_number self.now }
    {
        *self as u8
    }
}
