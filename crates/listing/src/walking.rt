// The walk of a pass: a search of the line, by the last address and the deepest open bit.
ghost use Rattle.std.specs.Prelude.{◌≡◌, ◌+◌, ◌^◌, ◌<◌, List, ◌∷◌, map};
ghost use Rattle.address.specs.Parts.{number as number_of};
ghost use Rattle.line.specs.Matching.{staged};
ghost use Rattle.line.specs.Searching.{on_line};
ghost use Rattle.line.specs.Seats.{Seat};
ghost use Rattle.line.specs.Signals.{played, slots};
ghost use Rattle.line.specs.declared.signal.Signal.TheVariants.{Reset};
ghost use Rattle.line.specs.declared.stage.Stage.TheVariants.{Search};
ghost use Rattle.line.specs.declared.stage.Turn.TheVariants.{Bit};
ghost use Rattle.listing.specs.Rule.{walk_over, levels_over, walk as walk_from, walk_levels};
ghost use Rattle.listing.specs.Meaning.{walk_of};

use crate::guide::Guide;
use crate::opens::Opens;
use crate::walk::{Reading, Stop};
use address::Address;
use line::{AddressCommand, Line, Presence, ask, send_bit, send_byte};

// Resets the line and searches it.
pub(crate) fn walk<L: Line>(line: &mut L, guide: Guide, opens: Opens) -> Result<Reading, Stop>
    ensures walk { walk_of result ≡ walk_over (on_line (L.Line.seats line.old)) guide.deepest (number_of guide.last) opens.flags }
    ensures given { L.Line.seats line.new ≡ map (played (Reset ∷ slots (levels_over (on_line (L.Line.seats line.old)) guide.deepest (number_of guide.last)))) (L.Line.seats line.old) }
{
    if line.reset() == Presence::Empty {
        return Err(Stop::Silent);
    }
    send_byte(line, AddressCommand::Search.byte());
    walk_bits(line, guide, opens)
}

// The 64 bits of a search that has begun.
fn walk_bits<L: Line>(line: &mut L, guide: Guide, opens: Opens) -> Result<Reading, Stop>
    ensures walk { (ss : List Seat) → L.Line.seats line.old ≡ map (staged (λ _. Search 0 Bit)) ss → walk_of result ≡ walk_from (on_line ss) guide.deepest (number_of guide.last) 64 0 0 opens.flags }
    ensures given { (ss : List Seat) → L.Line.seats line.old ≡ map (staged (λ _. Search 0 Bit)) ss → L.Line.seats line.new ≡ map (played (slots (walk_levels (on_line ss) guide.deepest (number_of guide.last) 64 0 0))) (L.Line.seats line.old) }
{
    let mut address = Address::from_bytes([0; 8]);
    let mut opens = opens;
    // counted, since a stop and what is opened name the bit
    for bit in 0..64u8 {
        let answered = ask(line);
        let value = guide.value_at(bit, answered)?;
        guide.note_fork(&mut opens, bit, answered);
        send_bit(line, value);
        if value {
            address = address.with_bit_set(u32::from(bit));
        }
    }
    Ok(Reading { address, opens })
}
