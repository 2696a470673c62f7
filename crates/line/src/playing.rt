// Signals given to a line, and what they come to for each seat of a string.
ghost use Rattle.std.specs.Prelude.{◌≡◌, map};
ghost use Rattle.line.specs.Signals.{signalled, played};
ghost use Rattle.line.specs.Strings.{FollowEach, reaching, StringsFollow};

use crate::Line;
use crate::signal::Signal;

// Gives the line these signals, in their order.
#[tactic(auto, using(crate::proofs::Strings::signals_followed, crate::proofs::Strings::strings_follow))]
pub fn play<L: Line>(line: &mut L, signals: &[Signal])
    ensures after { L.Line.seats line.new ≡ map (played signals.now) (L.Line.seats line.old) }
    ensures lives { FollowEach (map (reaching signals.now) (L.Line.seats line.old)) (L.Line.seats line.old) (L.Line.seats line.new) }
    ensures strings { StringsFollow }
{
    play_each(line, signals);
}

// Its proof goes step by step; the public call's does not.
fn play_each<L: Line>(line: &mut L, signals: &[Signal])
    ensures { L.Line.seats line.new ≡ map (played signals.now) (L.Line.seats line.old) }
{
    for signal in signals {
        give(line, *signal);
    }
}

fn give<L: Line>(line: &mut L, signal: Signal)
    ensures { L.Line.seats line.new ≡ map (signalled signal) (L.Line.seats line.old) }
{
    match signal {
        Signal::Reset => {
            let _ = line.reset();
        }
        Signal::Slot { level } => line.slot(level),
    }
}
