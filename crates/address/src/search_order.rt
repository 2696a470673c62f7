// Search order: at the lowest bit at which two addresses differ, the one with 0 comes first.
ghost use Rattle.std.specs.Prelude.{◌≡◌, IsSomeAnd, Some};
ghost use Rattle.std.specs.Ordering.{MatchOrdering, as_partial_cmp};
ghost use Rattle.address.specs.SearchOrder.{Before, StrictTotal, Ranking, TotalRanking, standing, search_cmp};
ghost use Rattle.address.specs.Orders.{addresses, orders_agree, orders_partly, orders_as_equal};

use crate::Address;
use std::cmp::Ordering;

// A derived order would be that of the numbers.
impl PartialOrd for Address {
    ghost partial_cmp = { as_partial_cmp search_cmp };

    ghost laws = { orders_partly };

    fn partial_cmp(&self, other: &Address) -> Option<Ordering>
        ensures value { result ≡ Some (search_cmp self.now other.now) }
        ensures answer { IsSomeAnd result (Ranking self.now other.now) }
    {
        Some(self.cmp(other))
    }
}

impl Ord for Address {
    ghost cmp = { search_cmp };

    ghost total = { addresses };

    ghost matches_partial_cmp = { orders_agree };

    ghost matches_eq = { orders_as_equal };

    fn cmp(&self, other: &Address) -> Ordering
        ensures value { result ≡ search_cmp self.now other.now }
        ensures answer { Ranking self.now other.now result }
        ensures law { StrictTotal Before }
        ensures sorts { TotalRanking Ranking }
    {
        compared(*self, *other)
    }
}

// How two addresses stand in search order, by the lowest bit at which they differ. Where they are one
// it is bit 64, which is 0 in both.
fn compared(a: Address, b: Address) -> Ordering
    ensures value { result ≡ search_cmp a b }
    ensures answer { Ranking a b result }
    ensures law { StrictTotal Before }
    ensures sorts { TotalRanking Ranking }
{
    let first = (a.bits ^ b.bits).trailing_zeros();
    a.bit(first).cmp(&b.bit(first))
}
