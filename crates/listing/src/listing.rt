// A listing: the addresses that its passes found, and how far they came.
ghost use Rattle.std.specs.Prelude.{◌≤◌, vec_len, vec_capacity};

use crate::opens::Opens;
use address::Address;

#[derive(Drop)]
pub struct Listing {
    // the addresses listed, in the order found
    pub(crate) addresses: Vec<Address>,
    // the last address found, right or not
    pub(crate) last: Address,
    pub(crate) opens: Opens,
    pub(crate) limit: usize,
    pub(crate) complete: bool,
    ghost room: { 128 ≤ vec_capacity addresses },
    ghost within: { vec_len addresses ≤ limit },
    ghost limited: { limit ≤ 128 },
}
