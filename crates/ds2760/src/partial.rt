// A byte under way, the lowest bit first.
ghost use Rattle.std.specs.Prelude.{◌≡◌, ◌<◌, MatchResult, ⊤};
ghost use Rattle.ds2760.specs.Commands.{pushed, shifted, empty};

// How many bits have come, and these at its top.
#[derive(Clone, Copy, PartialEq, Eq, Debug)]
pub struct Partial {
    pub(crate) count: u8,
    pub(crate) bits: u8,
}

impl Partial {
    // A byte of which no bit has come.
    pub(crate) fn new() -> Partial
        ensures { result ≡ empty }
    {
        Partial { count: 0, bits: 0 }
    }

    // A bit more: the whole byte, or what there is of it so far.
    pub(crate) fn push(self, level: bool) -> Result<u8, Partial>
        ensures value { result ≡ pushed level self }
        ensures more { MatchResult result (λ _. ⊤) (λ partial. partial.count < 8) }
    {
        let bits = shift(level, self.bits);
        if self.count < 7 {
            Err(Partial {
                count: self.count + 1,
                bits,
            })
        } else {
            Ok(bits)
        }
    }
}

// The bit enters at the top, and moves the others down.
fn shift(level: bool, bits: u8) -> u8
    ensures { result ≡ shifted level bits }
{
    if level { bits / 2 + 0x80 } else { bits / 2 }
}
