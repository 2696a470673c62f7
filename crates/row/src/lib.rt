// A row: many lines of one kind on one wire.
#![tactic(auto)]

ghost use Rattle.std.specs.Prelude.{◌≡◌, map};
ghost use Rattle.std.specs.List.{flat_map, list_all};
ghost use Rattle.line.specs.Seats.{takes_seat, reset_seat, drives_line, occupied, presence};
ghost use Rattle.row.specs.RowLineLemmas.{narrow_row};

use line::{Line, Presence};

// Its seats are those of its lines, one after the other.
#[derive(Drop)]
pub struct Row<L> {
    pub lines: Vec<L>,
}

impl<L: Line> Line for Row<L> {
    ghost seats = { λ r. flat_map L.Line.seats r.lines.items };

    ghost narrow = { λ x. narrow_row L.Line.seats x.lines.items L.Line.narrow };

    #[tactic(auto, using(crate::proofs::Rows::drives_all))]
    fn drive(&self) -> bool {
        drive_all(self.lines.as_slice())
    }

    #[tactic(auto, using(crate::proofs::Rows::given_back))]
    fn slot(&mut self, level: bool) {
        slot_all(self.lines.as_mut_slice(), level);
    }

    #[tactic(auto, using(crate::proofs::Rows::given_back))]
    fn reset(&mut self) -> Presence {
        reset_all(self.lines.as_mut_slice())
    }
}

// Whether no line drives 0.
fn drive_all<L: Line>(lines: &[L]) -> bool
    ensures { result ≡ list_all (λ x. drives_line (L.Line.seats x)) lines.now }
{
    lines.iter().all(|line| line.drive())
}

fn slot_all<L: Line>(lines: &mut [L], level: bool)
    ensures { flat_map L.Line.seats lines.new ≡ map (takes_seat level) (flat_map L.Line.seats lines.old) }
{
    for line in lines.iter_mut() {
        line.slot(level);
    }
}

fn reset_all<L: Line>(lines: &mut [L]) -> Presence
    ensures present { result ≡ presence (occupied (flat_map L.Line.seats lines.old)) }
    ensures after { flat_map L.Line.seats lines.new ≡ map reset_seat (flat_map L.Line.seats lines.old) }
{
    let mut answer = Presence::Empty;
    for line in lines.iter_mut() {
        answer = answer.or(line.reset());
    }
    answer
}
