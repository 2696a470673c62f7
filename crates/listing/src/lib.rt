// The listing of the addresses on a line, pass by pass, while packs come and go.
#![tactic(auto)]

ghost use Rattle.std.specs.Prelude.{◌≡◌, [], IfOk, Some, None, MatchResult};
ghost use Rattle.line.specs.Searching.{on_line};
ghost use Rattle.listing.specs.Calls.{Passed};
ghost use Rattle.listing.specs.Meaning.{state_of, meant};
ghost use Rattle.listing.specs.Passes.{Reads, Searches};
ghost use Rattle.listing.specs.Rule.{begun, outcome, begin_refusal, pass_refusal};
ghost use Rattle.listing.specs.Runs.{begin as begin_call, Truthful, Goes, Reachable, Limited};
ghost use Rattle.listing.specs.Still.{PassesSeeAddresses, PassesProgress, StillLinesList};

use beginning::ROOM;
use line::Line;
use std::alloc::{AllocError, Global};

mod answer;
mod begin_refusal;
mod beginning;
mod cases;
mod guide;
mod listing;
mod making;
mod opens;
mod parts;
mod passing;
mod walk;
mod walking;

pub use answer::{Answer, PassRefusal};
pub use begin_refusal::BeginRefusal;
pub use cases::worked_cases;
pub use listing::Listing;

impl Listing {
    // An empty listing, as after a begin with limit 0. All the memory that it will need is taken here.
    pub fn new(heap: Global) -> Result<Listing, AllocError>
        ensures made { IfOk result (λ l. state_of l ≡ begun 0) }
        ensures truthful { IfOk result (λ l. Truthful [] (state_of l)) }
        ensures reachable { IfOk result (λ l. Reachable (state_of l)) }
        ensures limits { IfOk result (λ l. Limited (state_of l)) }
    {
        let addresses = Vec::with_capacity(heap, ROOM)?;
        Ok(Listing::over(addresses))
    }

    // Begins anew, with room for so many addresses.
    pub fn begin(&mut self, limit: usize) -> Result<(), BeginRefusal>
        ensures cases { MatchResult result (λ _. (begin_refusal limit ≡ None) × (state_of self.new ≡ begun limit)) (λ e. (begin_refusal limit ≡ Some e) × (state_of self.new ≡ state_of self.old)) }
        ensures goes { Goes (begin_call limit) (state_of self.old) (state_of self.new) }
    {
        self.check_begin(limit)?;
        self.begin_anew(limit);
        Ok(())
    }

    // Makes a pass over the line: finds the next address, or closes the deepest open bit.
    pub fn pass<L: Line>(&mut self, line: &mut L) -> Result<Answer, PassRefusal>
        ensures cases { MatchResult result (λ answer. (pass_refusal (state_of self.old) ≡ None) × (meant answer ≡ outcome (on_line (L.Line.seats line.old)) (state_of self.old))) (λ e. (pass_refusal (state_of self.old) ≡ Some e) × (state_of self.new ≡ state_of self.old) × (line.new ≡ line.old)) }
        ensures passed { Passed (L.Line.seats line.old) (L.Line.seats line.new) (state_of self.old) (state_of self.new) }
        ensures searches { Searches (on_line (L.Line.seats line.old)) (state_of self.old) }
        ensures reads { Reads }
        ensures alike { PassesSeeAddresses }
        ensures progress { PassesProgress }
        ensures still { StillLinesList }
    {
        self.check_pass(line)?;
        Ok(self.make_pass(line))
    }
}
