// The tests of the line and of packs on it.
#![tactic(auto)]

ghost use Rattle.std.specs.Prelude.{[], ◌∷◌, ◌++◌, OnOk};
ghost use Rattle.ds2760.specs.Runs.{tick, reset};
ghost use Rattle.line.specs.Seats.{through};
ghost use Rattle.line.specs.Sockets.{is_attached};
ghost use Rattle.line.specs.Strings.{FollowEach, nothing};
ghost use Rattle.pack.specs.Packs.{seat_of};

use line::{Line, Pair, Refusal, Socket};
use pack::Pack;

// Pulls a pack, lets a tick pass for it and seats it again, beside any other line. It is an example of how
// the law of a string comes from the calls on its parts: the pack's history goes on with a tick and a reset,
// and nothing reaches the others.
fn reseat<L: Line>(rack: &mut Pair<Socket<Pack>, L>) -> Result<(), Refusal>
    ensures { OnOk result (FollowEach ((tick ∷ reset ∷ []) ∷ nothing (L.Line.seats rack.old.second)) (through (is_attached rack.old.first) (seat_of rack.old.first.line ∷ []) ++ L.Line.seats rack.old.second) (through (is_attached rack.new.first) (seat_of rack.new.first.line ∷ []) ++ L.Line.seats rack.new.second)) }
{
    rack.first.detach()?;
    rack.first.line.tick();
    rack.first.attach()?;
    Ok(())
}

#[cfg(test)]
mod tests;
