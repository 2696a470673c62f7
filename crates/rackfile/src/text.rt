// A rack file as text.
ghost use Rattle.std.specs.Prelude.{IfOk, Some, string_bytes};
ghost use Rattle.rackfile.specs.Files.{width_of, entries_of};
ghost use Rattle.rackfile.specs.Reports.{table, Reported};

use crate::{RackFile, checked};
use std::alloc::{AllocError, Global};
use std::fmt;

impl fmt::Display for RackFile {
    ghost output = { λ r. Some (table (width_of r) (entries_of r)) };

    #[tactic(auto, using(crate::proofs::Lines::table_steps), unfolding(crate::specs::Reports::heading, crate::specs::Reports::line))]
    fn fmt<W: fmt::Write>(&self, f: &mut fmt::Formatter<W>) -> fmt::Result {
        let (count, width) = (self.entries.len(), self.width);
        writeln!(f, "rack {count:02} width {width:02}")?;
        for (index, entry) in self.entries.iter().enumerate() {
            writeln!(f, "{:02} {} {}", index + 1, entry.address, entry.name)?;
        }
        Ok(())
    }
}

// What there is to print of a rack file: its table, or the line that refuses it.
#[tactic(auto, using(crate::proofs::Lines::figures_written))]
pub fn report(heap: Global, bytes: &[u8]) -> Result<String, AllocError>
    ensures { IfOk result (λ t. Reported bytes.now (string_bytes t)) }
{
    match checked(bytes) {
        Ok(layout) => layout.file(heap)?.to_string(heap),
        // a refusal for what the bytes are has a number
        Err(refusal) => format!(in heap; "refused {:02}\n", refusal.number().unwrap()),
    }
}
