// What is wrong with the entries of a rack file.
ghost use Rattle.std.specs.Prelude.{◌≡◌, ℕ, ◌<◌, ◌≤◌, Decides, MatchResult};
ghost use Rattle.std.specs.Result.{result_err};
ghost use Rattle.address.specs.Parts.{number};
ghost use Rattle.rackfile.specs.Files.{count, address_at};
ghost use Rattle.rackfile.specs.Refusals.{flaw_number, Unprintable, FirstFlaw, Sound, First};

use crate::layout::{Layout, RawEntry};
use crate::{Flaw, Refusal};
use address::Address;
use std::ops::Range;

impl Flaw {
    // The number with which the flaw is refused.
    pub fn number(self) -> u8
        ensures { result ≡ flaw_number self }
    {
        self as u8
    }
}

// Whether a byte of a name is outside 20h to 7Eh.
fn has_unprintable(name: &[u8]) -> bool
    ensures { Decides result (Unprintable name.now) }
{
    name.iter().any(|byte| !(0x20..=0x7e).contains(byte))
}

impl Layout<'_> {
    // Refuses a file by the first flaw of the first entry that has one.
    pub(crate) fn check(&self) -> Result<(), Refusal>
        ensures { MatchResult result (λ _. Sound self.now) (λ e. First self.now e) }
    {
        // counted, since a refusal names the entry
        for entry in 0..self.count {
            self.check_entry(entry)
                .map_err(|flaw| Refusal::Flawed { entry, flaw })?;
        }
        Ok(())
    }

    // Refuses an entry by its first flaw.
    fn check_entry(&self, index: usize) -> Result<(), Flaw>
        requires { index < count self.now }
        ensures { FirstFlaw self.now index (result_err result) }
    {
        let RawEntry { address, name } = self.entry(index);
        if !address.is_right() {
            return Err(Flaw::WrongCheckByte);
        }
        if self.any_has(0..index, address) {
            return Err(Flaw::RepeatedAddress);
        }
        if has_unprintable(name) {
            return Err(Flaw::UnprintableName);
        }
        Ok(())
    }

    // Whether one of these entries has the address.
    fn any_has(&self, mut entries: Range<usize>, address: Address) -> bool
        requires { entries.end ≤ count self.now }
        ensures { Decides result ((i : ℕ) × (entries.start ≤ i) × (i < entries.end) × (address_at self.now i ≡ number address)) }
    {
        entries.any(|index| self.entry(index).address == address)
    }
}
