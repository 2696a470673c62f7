// What a reset is answered.
ghost use Rattle.std.specs.Prelude.{◌≡◌};
ghost use Rattle.line.specs.Presences.{together};

#[derive(Clone, Copy, PartialEq, Eq, Debug)]
pub enum Presence {
    // some seat is on the line
    Present,
    // none is
    Empty,
}

impl Presence {
    // What two lines on one wire answer together.
    pub fn or(self, other: Presence) -> Presence
        ensures { result ≡ together self other }
    {
        match self {
            Presence::Present => Presence::Present,
            Presence::Empty => other,
        }
    }
}
