// The 64-bit address by which a pack is known on the line.
#![tactic(auto)]

ghost use Rattle.std.specs.Prelude.{◌≡◌, [], ◌∷◌};
ghost use Rattle.address.specs.Bits.{bit, with_bit_set};
ghost use Rattle.address.specs.CheckByte.{check_byte};
ghost use Rattle.address.specs.Parts.{number, family, serial_number, top_byte, sent, received, right, address_bits};

mod bits;
mod check_byte;
mod hexadecimal;
mod search_order;

pub use bits::bits_of;
use bits::{bit_of, bit_set, lowest_bits};
pub use check_byte::check_byte_of;

// The lowest byte is the family, the next six the serial number, the top byte the check byte.
#[derive(Clone, Copy, PartialEq, Eq, Debug)]
pub struct Address {
    bits: u64,
}

impl Address {
    // The address with these bytes, which are in sending order: family first, check byte last. A `From`
    // would not say in which order they are.
    pub fn from_bytes(bytes: [u8; 8]) -> Address
        ensures value { number result ≡ received bytes }
        ensures back { sent (number result) ≡ bytes }
    {
        Address {
            bits: packed(&bytes),
        }
    }

    // Its bytes in sending order.
    pub fn to_bytes(self) -> [u8; 8]
        ensures value { result ≡ sent (number self) }
        ensures back { received result ≡ number self }
    {
        self.bits.to_le_bytes()
    }

    // Bit k, the lowest being bit 0; false from bit 64 on.
    pub fn bit(self, k: u32) -> bool
        ensures { result ≡ bit k (number self) }
    {
        bit_of(self.bits, k as usize)
    }

    // Its bits, the lowest first.
    pub fn bits(self) -> [bool; 64]
        ensures { result ≡ address_bits (number self) }
    {
        lowest_bits(self.bits)
    }

    // The same address with a 1 at bit k; from bit 64 on there is no bit to set.
    pub fn with_bit_set(self, k: u32) -> Address
        ensures { number result ≡ with_bit_set k (number self) }
    {
        Address {
            bits: bit_set(self.bits, k),
        }
    }

    pub fn family(self) -> u8
        ensures { result ≡ family (number self) }
    {
        (self.bits % 256) as u8
    }

    // Six bytes, as a number below 2^48.
    pub fn serial_number(self) -> u64
        ensures { result ≡ serial_number (number self) }
    {
        self.bits / 256 % (1 << 48)
    }

    // The check byte that the address has, right or not.
    pub fn check_byte(self) -> u8
        ensures { result ≡ top_byte (number self) }
    {
        (self.bits >> 56) as u8
    }

    // Whether its check byte is that of its first seven bytes.
    pub fn is_right(self) -> bool
        ensures { result ≡ right (number self) }
    {
        let bytes = self.to_bytes();
        check_byte_of(&bytes[0..7]) == self.check_byte()
    }
}

// A published address: its first seven bytes have the check byte A2h.
pub fn example() -> Address
    ensures bytes { sent (number result) ≡ 0x02 ∷ 0x1c ∷ 0xb8 ∷ 0x01 ∷ 0x00 ∷ 0x00 ∷ 0x00 ∷ 0xa2 ∷ [] }
    ensures check { check_byte (0x02 ∷ 0x1c ∷ 0xb8 ∷ 0x01 ∷ 0x00 ∷ 0x00 ∷ 0x00 ∷ []) ≡ 0xa2 }
{
    Address::from_bytes([
        0x02,
        0x1c,
        0xb8,
        0x01,
        0x00,
        0x00,
        0x00,
        example_check_byte(),
    ])
}

fn example_check_byte() -> u8
    ensures value { result ≡ 0xa2 }
    ensures check { check_byte (0x02 ∷ 0x1c ∷ 0xb8 ∷ 0x01 ∷ 0x00 ∷ 0x00 ∷ 0x00 ∷ []) ≡ 0xa2 }
{
    0xa2
}

// Eight bytes, the lowest first, as one number.
fn packed(bytes: &[u8; 8]) -> u64
    ensures value { result ≡ received bytes.now }
    ensures back { sent result ≡ bytes.now }
{
    u64::from_le_bytes(*bytes)
}

#[cfg(test)]
mod tests;
