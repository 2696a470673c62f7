// The entries of a sound rack file.
ghost use Rattle.std.specs.Prelude.{◌≡◌, map, IfOk, IsUtf8};
ghost use Rattle.address.specs.Parts.{number};
ghost use Rattle.rackfile.specs.Files.{entries_in, listed};
ghost use Rattle.rackfile.specs.Refusals.{Sound, Holds};

use crate::layout::{Layout, RawEntry};
use crate::{Entry, RackFile};
use std::alloc::{AllocError, Global};

impl Layout<'_> {
    // The rack file that a sound file is. Sound is what `check` finds of a layout, and no layout by itself.
    pub(crate) fn file(&self, heap: Global) -> Result<RackFile, AllocError>
        requires { Sound self.now }
        ensures { IfOk result (λ file. Holds self.now file) }
    {
        Ok(RackFile {
            width: self.width,
            entries: self.entries(heap)?,
        })
    }

    // All entries, in file order.
    fn entries(&self, heap: Global) -> Result<Vec<Entry>, AllocError>
        requires { Sound self.now }
        ensures { IfOk result (λ v. map listed v.items ≡ entries_in self.now) }
    {
        // room for all is taken once, since growing by doubling would take more
        let mut entries = Vec::with_capacity(heap, self.count)?;
        for entry in (0..self.count).map(|index| self.entry(index).read(heap)) {
            entries.push(entry?)?;
        }
        Ok(entries)
    }
}

impl RawEntry<'_> {
    // The entry, with its name as text.
    fn read(&self, heap: Global) -> Result<Entry, AllocError>
        requires { IsUtf8 self.now.name.now }
        ensures { IfOk result (λ e. listed e ≡ record { address = number self.now.address; name = self.now.name.now }) }
    {
        let name = str::from_utf8(self.name).unwrap();
        Ok(Entry {
            address: self.address,
            name: name.to_string(heap)?,
        })
    }
}
