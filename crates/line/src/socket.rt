// A socket over any line: while it is detached, nothing of that line is on the wire.
ghost use Rattle.std.specs.Prelude.{◌≡◌, true, false, map, MatchResult};
ghost use Rattle.line.specs.Seats.{takes_seat, reset_seat, drives_line, occupied, presence, through};
ghost use Rattle.line.specs.Sockets.{number_of, is_attached};
ghost use Rattle.line.specs.Strings.{SocketFollows, SocketsFollow, attaching, nothing};
ghost use Rattle.line.specs.SocketLineLemmas.{either};

use crate::Line;
use crate::presence::Presence;

#[derive(Drop)]
pub struct Socket<L> {
    pub line: L,
    attached: bool,
}

// Why a socket is not attached or detached.
#[derive(Clone, Copy, PartialEq, Eq, Debug)]
pub enum Refusal {
    // it is so already
    Already = 10,
}

impl Refusal {
    // Its number; each set of refusals has its own.
    pub fn number(&self) -> u8
        ensures { result ≡ number_of self.now }
    {
        *self as u8
    }
}

impl<L: Line> Socket<L> {
    // A socket over the line, attached.
    pub fn new(line: L) -> Socket<L>
        ensures line { result.line ≡ line }
        ensures attached { is_attached result ≡ true }
    {
        Socket {
            line,
            attached: true,
        }
    }

    // Attaches the line, and gives it a reset.
    #[tactic(auto, using(crate::proofs::Strings::attached_by, crate::proofs::Strings::already_by, crate::proofs::Strings::sockets_follow))]
    pub fn attach(&mut self) -> Result<(), Refusal>
        ensures cases { MatchResult result (λ _. (is_attached self.old ≡ false) × (is_attached self.new ≡ true) × (L.Line.seats self.new.line ≡ map reset_seat (L.Line.seats self.old.line))) (λ _. (is_attached self.old ≡ true) × (self.new ≡ self.old)) }
        ensures lives { SocketFollows (is_attached self.old) (is_attached self.new) (map (attaching (is_attached self.old)) (L.Line.seats self.old.line)) (L.Line.seats self.old.line) (L.Line.seats self.new.line) }
        ensures sockets { SocketsFollow }
    {
        if self.attached {
            return Err(Refusal::Already);
        }
        self.attached = true;
        self.line.reset();
        Ok(())
    }

    // Detaches the line, which stays as it is.
    #[tactic(auto, using(crate::proofs::Strings::detached_by, crate::proofs::Strings::off_by))]
    pub fn detach(&mut self) -> Result<(), Refusal>
        ensures cases { MatchResult result (λ _. (is_attached self.old ≡ true) × (is_attached self.new ≡ false) × (self.new.line ≡ self.old.line)) (λ _. (is_attached self.old ≡ false) × (self.new ≡ self.old)) }
        ensures lives { SocketFollows (is_attached self.old) (is_attached self.new) (nothing (L.Line.seats self.old.line)) (L.Line.seats self.old.line) (L.Line.seats self.new.line) }
    {
        if !self.attached {
            return Err(Refusal::Already);
        }
        self.attached = false;
        Ok(())
    }
}

impl<L: Line> Line for Socket<L> {
    ghost seats = { λ s. through (is_attached s) (L.Line.seats s.line) };

    ghost narrow = { λ x. either x.attached (L.Line.seats x.line) (L.Line.narrow x.line) };

    #[tactic(auto, using(crate::proofs::Joins::drives_through))]
    fn drive(&self) -> bool {
        !self.attached || self.line.drive()
    }

    #[tactic(auto, using(crate::proofs::Joins::takes_through))]
    fn slot(&mut self, level: bool) {
        if self.attached {
            self.line.slot(level);
        }
    }

    #[tactic(auto, using(crate::proofs::Joins::present_through, crate::proofs::Joins::reset_through))]
    fn reset(&mut self) -> Presence {
        if self.attached {
            self.line.reset()
        } else {
            Presence::Empty
        }
    }
}
