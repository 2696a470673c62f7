// What a listing holds.
ghost use Rattle.std.specs.Prelude.{◌≡◌, false, map, slice_index_or};
ghost use Rattle.address.specs.Parts.{number as number_of};
ghost use Rattle.listing.specs.Meaning.{state_of};
ghost use Rattle.listing.specs.Runs.{Limited};

use crate::listing::Listing;
use address::Address;

impl Listing {
    // The addresses listed, in the order in which they were found.
    pub fn addresses(&self) -> &[Address]
        ensures listed { map number_of result.now ≡ (state_of self.now).listed }
        ensures limits { Limited (state_of self.now) }
    {
        self.addresses.as_slice()
    }

    // The last address found, right or not; 0 before the first.
    pub fn last(&self) -> Address
        ensures { number_of result ≡ (state_of self.now).last }
    {
        self.last
    }

    // Whether a bit is open.
    pub fn is_open(&self, bit: u8) -> bool
        ensures { result ≡ slice_index_or (state_of self.now).opens bit false }
    {
        self.opens.is_open(bit)
    }

    // How many addresses it may have.
    pub fn limit(&self) -> usize
        ensures { result ≡ (state_of self.now).limit }
    {
        self.limit
    }

    // Whether its last pass left no bit open.
    pub fn is_complete(&self) -> bool
        ensures { result ≡ (state_of self.now).complete }
    {
        self.complete
    }
}
