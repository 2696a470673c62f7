// Where a rack file has what.
ghost use Rattle.std.specs.Prelude.{◌≡◌, ◌<◌, IfErr, MatchResult};
ghost use Rattle.address.specs.Parts.{number};
ghost use Rattle.rackfile.specs.declared.Refusal.TheVariants.{Malformed};
ghost use Rattle.rackfile.specs.Files.{count, address_at, name_at, WellFormed};
ghost use Rattle.rackfile.specs.Refusals.{First};

use crate::Refusal;
use address::Address;
use std::marker::Model;

const LARGEST_COUNT: usize = 128;

const LARGEST_WIDTH: usize = 12;

// A well-formed file, with how many entries there are and how many bytes a name has.
#[derive(Drop)]
pub(crate) struct Layout<'a> {
    bytes: &'a [u8],
    pub(crate) count: usize,
    pub(crate) width: usize,
}

impl<'a> Model for Layout<'a> {
    ghost use Rattle.std.specs.Prelude.{ℕ, List};
    ghost use Rattle.rackfile.specs.Files.{Measured};

    ghost Value = { List ℕ };

    ghost view = { λ l. l.bytes.now };

    ghost invariant = { λ l. Measured l.bytes.now l.count l.width };
}

// An entry whose name is still in the file's bytes.
#[derive(Clone, Copy)]
pub(crate) struct RawEntry<'a> {
    pub(crate) address: Address,
    pub(crate) name: &'a [u8],
}

impl<'a> Layout<'a> {
    // The layout of a well-formed file. Only a file that is not well-formed is refused here: `check`
    // looks for flaws.
    pub(crate) fn read(bytes: &'a [u8]) -> Result<Layout<'a>, Refusal>
        ensures cases { MatchResult result (λ l. l ≡ bytes.now) (λ e. First bytes.now e) }
        ensures malformed { IfErr result (λ e. (e ≡ Malformed) × (WellFormed bytes.now → ⊥)) }
    {
        let &[count, width, ..] = bytes else {
            return Err(Refusal::Malformed);
        };
        let (count, width) = (usize::from(count), usize::from(width));
        if count > LARGEST_COUNT
            || !(1..=LARGEST_WIDTH).contains(&width)
            || bytes.len() != 2 + count * (8 + width)
        {
            return Err(Refusal::Malformed);
        }
        Ok(Layout {
            bytes,
            count,
            width,
        })
    }

    // An entry, as the file has it. It is taken by its place, as a refusal names it: what an
    // iterator gives would need a clause that says its place.
    #[tactic(auto, using(crate::proofs::Places::address_chunk))]
    pub(crate) fn entry(&self, index: usize) -> RawEntry<'a>
        requires { index < count self.now }
        ensures address { number result.address ≡ address_at self.now index }
        ensures name { result.name.now ≡ name_at self.now index }
    {
        let (addresses, _) = self.bytes[2..].as_chunks();
        let at = 2 + 8 * self.count + self.width * index;
        RawEntry {
            address: Address::from_bytes(addresses[index]),
            name: &self.bytes[at..at + self.width],
        }
    }
}
