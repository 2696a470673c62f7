// An address as text: the sixteen upper-case hexadecimal digits of its bytes in sending order.
ghost use Rattle.std.specs.Prelude.{Some};
ghost use Rattle.address.specs.Hexadecimal.{hexadecimal};
ghost use Rattle.address.specs.Parts.{number, sent};

use crate::Address;
use std::fmt;

impl fmt::Display for Address {
    ghost output = { λ a. Some (hexadecimal (sent (number a))) };

    #[tactic(auto, using(crate::proofs::Digits::digit_steps))]
    fn fmt<W: fmt::Write>(&self, f: &mut fmt::Formatter<W>) -> fmt::Result {
        for byte in self.to_bytes() {
            write!(f, "{byte:02X}")?;
        }
        Ok(())
    }
}
