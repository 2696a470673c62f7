// The rack file: which packs a rack should have, and what they are called.
#![tactic(auto)]

ghost use Rattle.std.specs.Prelude.{◌≡◌, map, MatchResult};
ghost use Rattle.rackfile.specs.declared.Refusal.TheVariants.{Memory};
ghost use Rattle.rackfile.specs.Files.{listed, width_of, entries_of};
ghost use Rattle.rackfile.specs.Refusals.{number_of, First, OneFirst, Refused, Sound, Holds};

use address::Address;
use layout::Layout;
use std::alloc::{AllocError, Global};

mod entries;
mod flaws;
mod layout;
mod text;

pub use text::report;

// One pack: its address, and its name, which is printable ASCII.
#[derive(Debug, Drop)]
pub struct Entry {
    pub address: Address,
    pub name: String,
}

// A rack file that was read: its entries in file order, and how long each name is.
#[derive(Debug, Drop)]
pub struct RackFile {
    width: usize,
    entries: Vec<Entry>,
}

// What can be wrong with an entry, in the order in which it is looked for.
#[derive(Clone, Copy, PartialEq, Eq, Debug)]
pub enum Flaw {
    // its check byte is not that of its first seven bytes
    WrongCheckByte = 6,
    // an earlier entry has the address
    RepeatedAddress = 14,
    // a byte of its name is outside 20h to 7Eh
    UnprintableName = 13,
}

// Why a rack file is not read.
#[derive(Clone, Copy, PartialEq, Eq, Debug)]
pub enum Refusal {
    // a size is out of range, or the length does not fit the sizes
    Malformed,
    // the entry, counted from 0, has the flaw
    Flawed { entry: usize, flaw: Flaw },
    // the file is sound, and there is no memory to hold it
    Memory,
}

impl Refusal {
    // Its number; want of memory has none.
    pub fn number(&self) -> Option<u8>
        ensures { result ≡ number_of self.now }
    {
        match self {
            Refusal::Malformed => Some(12),
            Refusal::Flawed { flaw, .. } => Some(flaw.number()),
            Refusal::Memory => None,
        }
    }
}

impl RackFile {
    // The rack file that these bytes are, or the first refusal.
    pub fn read(heap: Global, bytes: &[u8]) -> Result<RackFile, Refusal>
        ensures cases { MatchResult result (λ file. Holds bytes.now file) (λ e. Refused bytes.now e) }
        ensures law { OneFirst bytes.now }
    {
        Ok(checked(bytes)?.file(heap)?)
    }

    // How many bytes each name has.
    pub fn width(&self) -> usize
        ensures { result ≡ width_of self.now }
    {
        self.width
    }

    // The entries, in file order.
    pub fn entries(&self) -> &[Entry]
        ensures { map listed result.now ≡ entries_of self.now }
    {
        &self.entries
    }
}

// The layout of a sound file, or the first refusal.
fn checked(bytes: &[u8]) -> Result<Layout<'_>, Refusal>
    ensures cases { MatchResult result (λ l. (l ≡ bytes.now) × Sound bytes.now) (λ e. First bytes.now e) }
    ensures law { OneFirst bytes.now }
{
    let layout = Layout::read(bytes)?;
    layout.check()?;
    Ok(layout)
}

impl From<AllocError> for Refusal {
    ghost from_gives = { λ _ r. r ≡ Memory };

    fn from(_: AllocError) -> Refusal {
        Self::Memory
    }
}
