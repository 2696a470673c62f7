// Worked cases of the rule.
ghost use Rattle.std.specs.Prelude.{◌≡◌, map, sum};
ghost use Rattle.listing.specs.Cases.{WorkedCases, three_passes, answers};
ghost use Rattle.listing.specs.Rule.{slots};

// How many slots it takes to list three packs; the rule gives in this and the other worked cases what it should.
#[tactic(auto, using(crate::proofs::Worked::worked))]
pub fn worked_cases() -> u16
    ensures total { result ≡ sum (map slots (answers three_passes)) }
    ensures hold { WorkedCases }
{
    600
}
