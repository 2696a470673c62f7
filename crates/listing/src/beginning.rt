// A listing at its beginning.
ghost use Rattle.std.specs.Prelude.{◌≡◌, ◌≤◌, [], Some, None, vec_len, vec_capacity, MatchResult, OnErr};
ghost use Rattle.listing.specs.Meaning.{state_of};
ghost use Rattle.listing.specs.Rule.{begun, begin_refusal};
ghost use Rattle.listing.specs.Runs.{begin as begin_call, Truthful, Goes, Reachable, Limited};

use crate::begin_refusal::BeginRefusal;
use crate::listing::Listing;
use crate::opens::Opens;
use address::Address;

// The most addresses that a listing may have.
pub(crate) const ROOM: usize = 128;

impl Listing {
    // A listing over this memory.
    #[tactic(auto, using(crate::proofs::Runs::new_truthful, crate::proofs::Runs::new_reachable, crate::proofs::Runs::new_limited))]
    pub(crate) fn over(addresses: Vec<Address>) -> Listing
        requires none { addresses.items ≡ [] }
        requires len { vec_len addresses ≡ 0 }
        requires room { 128 ≤ vec_capacity addresses }
        ensures made { state_of result ≡ begun 0 }
        ensures truthful { Truthful [] (state_of result) }
        ensures reachable { Reachable (state_of result) }
        ensures limits { Limited (state_of result) }
    {
        Listing {
            addresses,
            last: Address::from_bytes([0; 8]),
            opens: Opens::none(),
            limit: 0,
            complete: false,
        }
    }

    // Refuses a begin with a limit that is too high.
    pub(crate) fn check_begin(&self, limit: usize) -> Result<(), BeginRefusal>
        ensures value { MatchResult result (λ _. begin_refusal limit ≡ None) (λ e. begin_refusal limit ≡ Some e) }
        ensures goes { OnErr result (Goes (begin_call limit) (state_of self.now) (state_of self.now)) }
    {
        if limit > ROOM {
            return Err(BeginRefusal::LimitTooHigh);
        }
        Ok(())
    }

    // Begins anew, with this limit.
    pub(crate) fn begin_anew(&mut self, limit: usize)
        requires { begin_refusal limit ≡ None }
        ensures begun { state_of self.new ≡ begun limit }
        ensures goes { Goes (begin_call limit) (state_of self.old) (state_of self.new) }
    {
        self.addresses.clear();
        self.last = Address::from_bytes([0; 8]);
        self.opens = Opens::none();
        self.limit = limit;
        self.complete = false;
    }

    // Does nothing: a caller knows that the limits hold. A function that changes the listing learns how
    // many addresses there are only from a call by `&self`.
    pub(crate) fn keeps_room(&self)
        ensures { Limited (state_of self.now) }
    {
        let _ = self.addresses.as_slice();
    }
}
