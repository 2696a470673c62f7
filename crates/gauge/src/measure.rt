// A measurement and its counts.
ghost use Rattle.std.specs.Prelude.{◌≡◌, true, false, pos, negsuc, ◌≤ℤ◌, MatchResult};
ghost use Rattle.gauge.specs.Measures.{in_range, number_of, floor, limited, voltage_count, current_count, temperature_count, RoundsDown};
ghost use Rattle.gauge.specs.Held.{Counted};

use crate::count::{Current, Temperature, Voltage};
use crate::counts::Counts;

// What is measured at one moment. Any number can be held; counts are taken of those in range.
#[derive(Clone, Copy, PartialEq, Eq, Debug)]
pub struct Measurement {
    // in µV, 0 to 20,000,000
    pub cell_voltage: i64,
    // over the sense resistor in nV, -1,000,000,000 to 1,000,000,000
    pub sense_voltage: i64,
    // in thousandths of a degree, -273,150 to 1,000,000
    pub temperature: i64,
}

// What is subtracted from each current count.
#[derive(Clone, Copy, PartialEq, Eq, Debug)]
pub struct Bias(pub i8);

// Why a measurement is not taken.
#[derive(Clone, Copy, PartialEq, Eq, Debug)]
pub enum Refusal {
    // a number is outside its range
    OutOfRange = 9,
}

impl Refusal {
    // Its number; each set of refusals has its own.
    pub fn number(&self) -> u8
        ensures { result ≡ number_of self.now }
    {
        *self as u8
    }
}

impl Measurement {
    // Its counts, where each number is in range. The bias is subtracted from the current.
    pub fn counts(self, bias: Bias) -> Result<Counts, Refusal>
        ensures cases { MatchResult result (λ c. (in_range self ≡ true) × Counted self bias.0 c) (λ _. in_range self ≡ false) }
        ensures law { RoundsDown }
    {
        let counts = self.counted(bias);
        if self.in_range() {
            Ok(counts)
        } else {
            Err(Refusal::OutOfRange)
        }
    }

    // Its counts, in range or not.
    #[tactic(auto, using(crate::proofs::Casts::casts, crate::proofs::Floors::rounds_down), unfolding(crate::specs::Measures::voltage_count, crate::specs::Measures::current_count, crate::specs::Measures::temperature_count))]
    fn counted(self, bias: Bias) -> Counts
        ensures counted { Counted self bias.0 result }
        ensures law { RoundsDown }
    {
        Counts {
            voltage: Voltage::of(self.cell_voltage, VOLTAGE_UNIT),
            current: Current::of(self.sense_voltage, CURRENT_UNIT).less(bias.0),
            temperature: Temperature::of(self.temperature, TEMPERATURE_UNIT),
        }
    }

    fn in_range(&self) -> bool
        ensures { result ≡ in_range self.now }
    {
        (0..=20_000_000).contains(&self.cell_voltage)
            && (-1_000_000_000..=1_000_000_000).contains(&self.sense_voltage)
            && (-273_150..=1_000_000).contains(&self.temperature)
    }
}

const VOLTAGE_UNIT: i64 = 4_880;

const CURRENT_UNIT: i64 = 15_625;

const TEMPERATURE_UNIT: i64 = 125;
