// The bits of numbers, the lowest first.
ghost use Rattle.std.specs.Prelude.{◌≡◌, map};
ghost use Rattle.std.specs.List.{range_with_len};
ghost use Rattle.address.specs.Bits.{bit, bits, with_bit_set};

// The eight bits of a byte, the lowest first, as they travel.
pub fn bits_of(byte: u8) -> [bool; 8]
    ensures { result ≡ bits byte }
{
    lowest_bits(u64::from(byte))
}

// The lowest bits of a number, the lowest first.
pub(crate) fn lowest_bits<const N: usize>(number: u64) -> [bool; N]
    ensures { result ≡ map (λ k. bit k number) (range_with_len 0 N) }
{
    // filled in place: of an array that a closure made no proof knows what the closure had at hand
    let mut bits = [false; N];
    for (k, bit) in bits.iter_mut().enumerate() {
        *bit = bit_of(number, k);
    }
    bits
}

// Bit k of a number; false from bit 64 on.
pub(crate) fn bit_of(number: u64, k: usize) -> bool
    ensures { result ≡ bit k number }
{
    k < 64 && (number >> k) % 2 == 1
}

// A number with a 1 at bit k, where it has such a bit.
pub(crate) fn bit_set(number: u64, k: u32) -> u64
    ensures { result ≡ with_bit_set k number }
{
    if k < 64 { number | 1 << k } else { number }
}
