// A pass, refused or made, with all that is known of it.
ghost use Rattle.std.specs.Prelude.{◌≡◌, ◌<◌, Some, None, vec_len, MatchResult, OnOk, OnErr};
ghost use Rattle.line.specs.Searching.{on_line};
ghost use Rattle.listing.specs.Calls.{Passed};
ghost use Rattle.listing.specs.Meaning.{state_of, meant};
ghost use Rattle.listing.specs.Passes.{Reads, Searches};
ghost use Rattle.listing.specs.Rule.{outcome, pass_refusal};
ghost use Rattle.listing.specs.Still.{PassesSeeAddresses, PassesProgress, StillLinesList};

use crate::answer::{Answer, PassRefusal};
use crate::listing::Listing;
use line::Line;

impl Listing {
    // Refuses a pass over this line, where the listing is complete or at its limit.
    pub(crate) fn check_pass<L: Line>(&self, line: &L) -> Result<(), PassRefusal>
        ensures value { MatchResult result (λ _. pass_refusal (state_of self.now) ≡ None) (λ e. pass_refusal (state_of self.now) ≡ Some e) }
        ensures room { OnOk result (vec_len self.now.addresses < self.now.limit) }
        ensures searches { Searches (on_line (L.Line.seats line.now)) (state_of self.now) }
        ensures reads { Reads }
        ensures alike { PassesSeeAddresses }
        ensures progress { PassesProgress }
        ensures still { StillLinesList }
        ensures passed { OnErr result (Passed (L.Line.seats line.now) (L.Line.seats line.now) (state_of self.now) (state_of self.now)) }
    {
        self.keeps_room();
        self.check()
    }

    fn check(&self) -> Result<(), PassRefusal>
        ensures value { MatchResult result (λ _. pass_refusal (state_of self.now) ≡ None) (λ e. pass_refusal (state_of self.now) ≡ Some e) }
        ensures room { OnOk result (vec_len self.now.addresses < self.now.limit) }
    {
        let listed = self.addresses.as_slice();
        if self.complete {
            return Err(PassRefusal::Complete);
        }
        if listed.len() >= self.limit {
            return Err(PassRefusal::LimitReached);
        }
        Ok(())
    }

    // Makes a pass that is not refused. There is room for an address then, which is not so of every
    // listing, so that the listing itself cannot say it.
    pub(crate) fn make_pass<L: Line>(&mut self, line: &mut L) -> Answer
        requires room { vec_len self.old.addresses < self.old.limit }
        requires refusal { pass_refusal (state_of self.old) ≡ None }
        ensures answer { meant result ≡ outcome (on_line (L.Line.seats line.old)) (state_of self.old) }
        ensures passed { Passed (L.Line.seats line.old) (L.Line.seats line.new) (state_of self.old) (state_of self.new) }
    {
        let answer = self.search(line);
        self.keeps_room();
        answer
    }
}
