// What a measurement does to a store.
ghost use Rattle.std.specs.Prelude.{◌≡◌, true, false, MatchResult};
ghost use Rattle.gauge.specs.Measures.{in_range};
ghost use Rattle.ds2760.specs.Commands.{measured, bias_of};
ghost use Rattle.ds2760.specs.Meaning.{state_of};
ghost use Rattle.ds2760.specs.Runs.{Follows, measure};

use crate::store::Store;
use gauge::{Bias, Counts, Measurement, Refusal};

impl Store {
    // Takes a measurement, or refuses it and leaves all as it was.
    #[tactic(auto, using(crate::proofs::Runs::follows))]
    pub fn measure(&mut self, measurement: Measurement) -> Result<(), Refusal>
        ensures cases { MatchResult result (λ _. (in_range measurement ≡ true) × (state_of self.new ≡ measured measurement (state_of self.old))) (λ _. (in_range measurement ≡ false) × (state_of self.new ≡ state_of self.old)) }
        ensures lawful { Follows (measure measurement) (state_of self.old) (state_of self.new) }
    {
        let counts = measurement.counts(self.bias())?;
        self.voltage = counts.voltage_register();
        self.current = counts.current_register();
        self.temperature = counts.temperature_register();
        self.accumulator.add(&counts);
        Ok(())
    }

    // The bias: the signed byte of the shadow at 33h.
    fn bias(&self) -> Bias
        ensures { result.0 ≡ bias_of (state_of self.now) }
    {
        Bias(self.shadow[0x13].cast_signed())
    }
}
