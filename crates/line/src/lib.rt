// The 1-Wire line: one interface, and the kinds of simulated line there are.
#![tactic(auto)]

ghost use Rattle.std.specs.Prelude.{◌≡◌, ◌^◌, ◌<◌, List, map};
ghost use Rattle.line.specs.Seats.{Seat, takes_seat, reset_seat, drives_line, occupied, presence};
ghost use Rattle.std.specs.List.{AllByRecursion};

mod choosing;
mod command;
mod master;
mod pair;
mod playing;
mod presence;
mod signal;
mod socket;
mod stage;
mod stages;
mod tag;
mod tag_stage;
mod tags;

pub use choosing::{Answered, ask, match_address, search_address};
pub use command::{AddressCommand, UnknownCommand};
pub use master::{read_bit, read_byte, send_bit, send_byte};
pub use pair::Pair;
pub use playing::play;
pub use presence::Presence;
pub use signal::Signal;
pub use socket::{Refusal, Socket};
pub use stage::{Stage, Turn};
pub use tag::Tag;

// A line, by its seats.
pub trait Line {
    ghost seats: { Self → List Seat };

    // The level on the line: false when some seat drives 0.
    fn drive(&self) -> bool
        ensures { result ≡ drives_line (seats self.now) };

    // Gives every seat on the line a level.
    fn slot(&mut self, level: bool)
        ensures { seats self.new ≡ map (takes_seat level) (seats self.old) };

    // Resets every seat on the line, and answers whether there is one.
    fn reset(&mut self) -> Presence
        ensures present { result ≡ presence (occupied (seats self.old)) }
        ensures after { seats self.new ≡ map reset_seat (seats self.old) };

    // every address has 64 bits
    ghost narrow: { (x : Self) → AllByRecursion (λ s. s.address < 2 ^ 64) (seats x) };
}
