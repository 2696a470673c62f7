// Two lines on one wire.
ghost use Rattle.std.specs.Prelude.{◌≡◌, ◌^◌, ◌<◌, ◌++◌, map};
ghost use Rattle.line.specs.Seats.{takes_seat, reset_seat, drives_line, occupied, presence, Seat};
ghost use Rattle.std.proofs.ByRecursion.{All-append};

use crate::Line;
use crate::presence::Presence;

#[derive(Drop)]
pub struct Pair<A, B> {
    pub first: A,
    pub second: B,
}

impl<A: Line, B: Line> Line for Pair<A, B> {
    ghost seats = { λ p. A.Line.seats p.first ++ B.Line.seats p.second };

    ghost narrow = { λ x. All-append (λ (s : Seat). s.address < 2 ^ 64) (A.Line.seats x.first) (B.Line.seats x.second) (A.Line.narrow x.first) (B.Line.narrow x.second) };

    #[tactic(auto, using(crate::proofs::Joins::drives_join))]
    fn drive(&self) -> bool {
        self.first.drive() && self.second.drive()
    }

    #[tactic(auto, using(crate::proofs::Joins::takes_join))]
    fn slot(&mut self, level: bool) {
        self.first.slot(level);
        self.second.slot(level);
    }

    #[tactic(auto, using(crate::proofs::Joins::presence_join, crate::proofs::Joins::reset_join))]
    fn reset(&mut self) -> Presence {
        let first = self.first.reset();
        first.or(self.second.reset())
    }
}
