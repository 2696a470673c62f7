// What the current accumulator holds.
ghost use Rattle.std.specs.Prelude.{◌≡◌, pos};
ghost use Rattle.gauge.specs.Charges.{charge_of};

use crate::accumulator::Accumulator;

impl Accumulator {
    pub fn amount(&self) -> i16
        ensures { result ≡ (charge_of self.now).amount }
    {
        self.amount
    }

    // What is left towards the next step of the amount, of 180,000 parts.
    pub fn residue(&self) -> u32
        ensures { pos result ≡ (charge_of self.now).residue }
    {
        self.residue
    }
}
