// The check byte of bytes.
ghost use Rattle.std.specs.Prelude.{◌≡◌};
ghost use Rattle.std.specs.List.{flat_map};
ghost use Rattle.address.specs.Bits.{bit, bits};
ghost use Rattle.address.specs.CheckByte.{shifted, fed, byte_of, stages, check_byte};
ghost use Rattle.address.specs.Division.{Remainder};

use crate::bits::bits_of;

// X^5 + X^4 + 1 as the register has it, with the coefficient of X^0 in the highest bit.
const FEEDBACK: u8 = 0x8C;

// The register after one bit more.
fn shift(register: u8, level: bool) -> u8
    ensures { result ≡ byte_of (shifted level (stages register)) }
{
    let output = register % 2 == 1;
    if output != level {
        (register / 2) ^ FEEDBACK
    } else {
        register / 2
    }
}

// The register after the eight bits of one byte more.
fn feed(register: u8, byte: u8) -> u8
    ensures { result ≡ byte_of (fed (bits byte) (stages register)) }
{
    let mut register = register;
    for level in bits_of(byte) {
        register = shift(register, level);
    }
    register
}

// The check byte of these bytes: of an address's first seven, the one that makes it right. It is also
// what their division by X^8 + X^5 + X^4 + 1 leaves.
pub fn check_byte_of(bytes: &[u8]) -> u8
    ensures value { result ≡ check_byte bytes.now }
    ensures division { Remainder (flat_map bits bytes.now) (stages result) }
{
    let mut register = 0;
    for byte in bytes {
        register = feed(register, *byte);
    }
    register
}
