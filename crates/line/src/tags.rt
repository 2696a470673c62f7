// A tag as a line.
ghost use Rattle.std.specs.Prelude.{◌≡◌, [], ◌∷◌, None};
ghost use Rattle.address.specs.Parts.{number};
ghost use Rattle.line.specs.Kinds.{seat_of, new_seat};
ghost use Rattle.line.specs.Lives.{LawfulHistory, HistoriesAreLawful};
ghost use Rattle.line.specs.Seats.{is_chosen};

use crate::Line;
use crate::presence::Presence;
use crate::stage::{Stage, Turn};
use crate::stages::{commanded, onward};
use crate::tag::Tag;
use address::Address;

impl Tag {
    // A tag with this address, deaf.
    #[tactic(auto, using(crate::proofs::Lives::tag_made, crate::proofs::Lives::histories_are_lawful))]
    pub fn new(address: Address) -> Tag
        ensures made { seat_of result ≡ new_seat (number address) }
        ensures lawful { LawfulHistory (record { address = number address; eeprom = None; calls = [] }) (seat_of result) }
        ensures histories { HistoriesAreLawful }
    {
        Tag {
            address,
            stage: Stage::Deaf,
        }
    }

    // Whether it is chosen.
    pub fn is_chosen(&self) -> bool
        ensures { result ≡ is_chosen (seat_of self.now).stage }
    {
        self.stage == Stage::Chosen
    }
}

impl Line for Tag {
    ghost seats = { λ t. seat_of t ∷ [] };

    ghost narrow = { λ t. (t.narrow, tt) };

    fn drive(&self) -> bool {
        self.stage.drives(self.address)
    }

    fn slot(&mut self, level: bool) {
        match self.stage {
            Stage::Command { count, bits } => self.stage = commanded(count, level, bits),
            Stage::Search {
                bit,
                turn: Turn::Bit,
            } => {
                self.stage = Stage::Search {
                    bit,
                    turn: Turn::Opposite,
                }
            }
            Stage::Search {
                bit,
                turn: Turn::Opposite,
            } => {
                self.stage = Stage::Search {
                    bit,
                    turn: Turn::Listen,
                }
            }
            Stage::Search {
                bit,
                turn: Turn::Listen,
            } if level == self.address.bit(u32::from(bit)) => {
                self.stage = onward(
                    bit,
                    |bit| Stage::Search {
                        bit,
                        turn: Turn::Bit,
                    },
                )
            }
            Stage::Match { bit } if level == self.address.bit(u32::from(bit)) => {
                self.stage = onward(bit, |bit| Stage::Match { bit })
            }
            Stage::Tell { bit } => self.stage = onward(bit, |bit| Stage::Tell { bit }),
            Stage::Chosen => {}
            _ => self.stage = Stage::Deaf,
        }
    }

    fn reset(&mut self) -> Presence {
        self.stage = Stage::Command { count: 0, bits: 0 };
        Presence::Present
    }
}
