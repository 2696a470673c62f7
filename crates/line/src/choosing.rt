// Choosing the seats of one address.
ghost use Rattle.std.specs.Prelude.{◌≡◌, true, not, map};
ghost use Rattle.address.specs.Parts.{number};
ghost use Rattle.line.specs.Choosing.{match_signals, search_signals};
ghost use Rattle.line.specs.Matching.{chosen_by};
ghost use Rattle.line.specs.Searching.{on_line};
ghost use Rattle.line.specs.Seats.{drives_line};
ghost use Rattle.line.specs.Sending.{sent_bit};
ghost use Rattle.line.specs.Signals.{played};

use crate::Line;
use crate::command::AddressCommand;
use crate::master::{read_bit, send_bit, send_bits, send_byte};
use address::Address;

// Which values are answered at a bit of a search.
#[derive(Clone, Copy, PartialEq, Eq, Debug)]
pub struct Answered {
    pub zero: bool,
    pub one: bool,
}

// Reads the two turns in which the seats of a search drive a bit and its opposite.
pub fn ask<L: Line>(line: &mut L) -> Answered
    ensures zero { result.zero ≡ not (drives_line (L.Line.seats line.old)) }
    ensures one { result.one ≡ not (drives_line (sent_bit true (L.Line.seats line.old))) }
    ensures after { L.Line.seats line.new ≡ sent_bit true (sent_bit true (L.Line.seats line.old)) }
{
    let bit = read_bit(line);
    let opposite = read_bit(line);
    Answered {
        zero: !bit,
        one: !opposite,
    }
}

// Resets the line and matches an address: then the seats with that address are chosen, and all others
// that are on the line are deaf.
pub fn match_address<L: Line>(line: &mut L, address: Address)
    ensures chosen { L.Line.seats line.new ≡ map (chosen_by (number address)) (L.Line.seats line.old) }
    ensures given { L.Line.seats line.new ≡ map (played (match_signals (number address))) (L.Line.seats line.old) }
{
    walk_match(line, address);
}

// Its proof goes step by step; the public call's does not.
fn walk_match<L: Line>(line: &mut L, address: Address)
    ensures chosen { L.Line.seats line.new ≡ map (chosen_by (number address)) (L.Line.seats line.old) }
    ensures given { L.Line.seats line.new ≡ map (played (match_signals (number address))) (L.Line.seats line.old) }
{
    let _ = line.reset();
    send_byte(line, AddressCommand::Match.byte());
    send_bits(line, &address.bits());
}

// Resets the line and walks a search with an address, whatever is answered: then the seats with that
// address are chosen, and all others that are on the line are deaf.
pub fn search_address<L: Line>(line: &mut L, address: Address)
    ensures chosen { L.Line.seats line.new ≡ map (chosen_by (number address)) (L.Line.seats line.old) }
    ensures given { L.Line.seats line.new ≡ map (played (search_signals (number address) (on_line (L.Line.seats line.old)))) (L.Line.seats line.old) }
{
    walk_search(line, address);
}

// Its proof goes step by step; the public call's does not.
fn walk_search<L: Line>(line: &mut L, address: Address)
    ensures chosen { L.Line.seats line.new ≡ map (chosen_by (number address)) (L.Line.seats line.old) }
    ensures given { L.Line.seats line.new ≡ map (played (search_signals (number address) (on_line (L.Line.seats line.old)))) (L.Line.seats line.old) }
{
    let _ = line.reset();
    send_byte(line, AddressCommand::Search.byte());
    for bit in address.bits() {
        let _ = ask(line);
        send_bit(line, bit);
    }
}
