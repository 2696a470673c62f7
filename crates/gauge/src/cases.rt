// Worked cases of the rules.
ghost use Rattle.std.specs.Prelude.{◌≡◌, length};
ghost use Rattle.gauge.specs.Cases.{cases, Hold};

// How many worked cases there are; the rules give in each what it should be.
#[tactic(auto, unfolding(crate::specs::Measures::voltage_count, crate::specs::Measures::current_count, crate::specs::Measures::temperature_count))]
pub fn worked_cases() -> usize
    ensures count { result ≡ length cases }
    ensures hold { Hold cases }
{
    5
}
