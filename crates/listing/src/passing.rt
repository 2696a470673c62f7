// What a walk does to a listing.
ghost use Rattle.std.specs.Prelude.{◌≡◌, ◌<◌, not, ◌∷◌, ◌++◌, map, is_some, if◌then◌else◌, vec_len};
ghost use Rattle.address.specs.Parts.{number as number_of, right};
ghost use Rattle.line.specs.Searching.{on_line};
ghost use Rattle.line.specs.Signals.{played, slots};
ghost use Rattle.line.specs.declared.signal.Signal.TheVariants.{Reset};
ghost use Rattle.listing.specs.Meaning.{state_of, meant, walk_of, closed_by};
ghost use Rattle.listing.specs.Rule.{found, spoilt, deepest as deepest_in, closing, lists, outcome, outcome_of, passed, passed_by, levels};

use crate::answer::Answer;
use crate::guide::Guide;
use crate::listing::Listing;
use crate::opens::Opens;
use crate::walk::{Reading, Stop};
use crate::walking::walk;
use address::Address;
use line::Line;

impl Listing {
    // A pass that is not refused.
    pub(crate) fn search<L: Line>(&mut self, line: &mut L) -> Answer
        requires { vec_len self.old.addresses < self.old.limit }
        ensures answer { meant result ≡ outcome (on_line (L.Line.seats line.old)) (state_of self.old) }
        ensures state { state_of self.new ≡ passed (on_line (L.Line.seats line.old)) (state_of self.old) }
        ensures given { L.Line.seats line.new ≡ map (played (Reset ∷ slots (levels (on_line (L.Line.seats line.old)) (state_of self.old)))) (L.Line.seats line.old) }
    {
        let guide = Guide {
            last: self.last,
            deepest: self.opens.deepest(),
        };
        let walk = walk(line, guide, self.opens);
        self.note(guide.deepest, walk)
    }

    // Takes note of what a walk came to.
    fn note(&mut self, deepest: Option<u8>, walk: Result<Reading, Stop>) -> Answer
        requires room { vec_len self.old.addresses < self.old.limit }
        requires deepest { deepest ≡ deepest_in self.old.opens.flags }
        ensures answer { meant result ≡ outcome_of (walk_of walk) }
        ensures state { state_of self.new ≡ passed_by (walk_of walk) (state_of self.old) }
    {
        match walk {
            Ok(Reading { address, opens }) => {
                self.settle(opens, deepest);
                self.list(address)
            }
            Err(stop) => {
                let opens = self.opens;
                self.settle(opens, deepest);
                Answer::from(stop)
            }
        }
    }

    // These bits are open now, less the deepest of before.
    fn settle(&mut self, opens: Opens, deepest: Option<u8>)
        ensures opens { self.new.opens.flags ≡ closing deepest opens.flags }
        ensures complete { self.new.complete ≡ not (is_some (deepest_in (closing deepest opens.flags))) }
        ensures addresses { self.new.addresses ≡ self.old.addresses }
        ensures last { self.new.last ≡ self.old.last }
        ensures limit { self.new.limit ≡ self.old.limit }
    {
        self.opens = opens;
        self.opens.close(deepest);
        self.complete = self.opens.deepest().is_none();
    }

    // The address read is the last one now, and is listed if it is right.
    fn list(&mut self, address: Address) -> Answer
        requires { vec_len self.old.addresses < self.old.limit }
        ensures answer { meant result ≡ (if right (number_of address) then found (number_of address) else spoilt (number_of address)) }
        ensures listed { map number_of self.new.addresses.items ≡ map number_of self.old.addresses.items ++ lists (meant result) }
        ensures last { self.new.last ≡ address }
        ensures opens { self.new.opens ≡ self.old.opens }
        ensures limit { self.new.limit ≡ self.old.limit }
        ensures complete { self.new.complete ≡ self.old.complete }
    {
        self.last = address;
        if !address.is_right() {
            return Answer::Spoilt { address };
        }
        let _ = self.addresses.push(address);
        Answer::Found { address }
    }
}

impl From<Stop> for Answer {
    ghost from_gives = { λ stop answer. meant answer ≡ closed_by stop };

    fn from(stop: Stop) -> Answer {
        match stop {
            Stop::Silent => Answer::ClosedEmpty,
            Stop::At { bit } => Answer::ClosedAt { bit },
        }
    }
}
