// What a pass goes by: the last address found, up to the deepest open bit.
ghost use Rattle.std.specs.Prelude.{◌≡◌, true, if◌then◌else◌, Ok, Err, slice_set};
ghost use Rattle.address.specs.Parts.{number as number_of};
ghost use Rattle.listing.specs.Rule.{wanted, stops, forks, told};
ghost use Rattle.listing.specs.declared.walk.Stop.TheVariants.{At};

use crate::opens::Opens;
use crate::walk::Stop;
use address::Address;
use line::Answered;

#[derive(Clone, Copy)]
pub(crate) struct Guide {
    pub(crate) last: Address,
    pub(crate) deepest: Option<u8>,
}

impl Guide {
    // The value to send at a bit: below the deepest open bit the last address's, at it 1, each only if it is
    // answered; else 0 if that is answered, and 1 if not.
    pub(crate) fn value_at(self, bit: u8, answered: Answered) -> Result<bool, Stop>
        ensures { result ≡ (if stops self.deepest (number_of self.last) bit answered.zero answered.one then Err (At bit) else Ok (wanted self.deepest (number_of self.last) bit answered.zero)) }
    {
        match self.deepest {
            Some(d) if bit < d => if_answered(self.last.bit(u32::from(bit)), bit, answered),
            Some(d) if bit == d => if_answered(true, bit, answered),
            _ => Ok(!answered.zero),
        }
    }

    // Opens a bit where no value is told and both are answered.
    pub(crate) fn note_fork(self, opens: &mut Opens, bit: u8, answered: Answered)
        ensures { opens.new.flags ≡ (if forks self.deepest bit answered.zero answered.one then slice_set opens.old.flags bit true else opens.old.flags) }
    {
        if !self.tells(bit) && answered.zero && answered.one {
            opens.open(bit);
        }
    }

    // Whether the value at a bit is told: the bit is not above the deepest open one.
    fn tells(self, bit: u8) -> bool
        ensures { result ≡ told self.deepest bit }
    {
        self.deepest.is_some_and(|d| bit <= d)
    }
}

fn if_answered(value: bool, bit: u8, answered: Answered) -> Result<bool, Stop>
    ensures { result ≡ (if (if value then answered.one else answered.zero) then Ok value else Err (At bit)) }
{
    let heard = if value { answered.one } else { answered.zero };
    heard.then_some(value).ok_or(Stop::At { bit })
}
