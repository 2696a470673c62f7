// What a master does with a line: it sends and reads bits and bytes.
ghost use Rattle.std.specs.Prelude.{◌≡◌, true, map};
ghost use Rattle.address.specs.Bits.{bits as bits_in};
ghost use Rattle.line.specs.Seats.{drives_line, takes_seat};
ghost use Rattle.line.specs.Sending.{sent_bit, sent, Quiet, read_on, read_value};
ghost use Rattle.line.specs.Signals.{played, slots};

use crate::Line;
use crate::stages::with_bit;
use address::bits_of;

// Sends a bit: the level is the bit, unless a seat drives 0.
pub fn send_bit<L: Line>(line: &mut L, bit: bool)
    ensures after { L.Line.seats line.new ≡ sent_bit bit (L.Line.seats line.old) }
    ensures quiet { drives_line (L.Line.seats line.old) ≡ true → L.Line.seats line.new ≡ map (takes_seat bit) (L.Line.seats line.old) }
{
    let level = line.drive();
    line.slot(bit && level);
}

// Reads a bit: it sends 1 and takes the level.
pub fn read_bit<L: Line>(line: &mut L) -> bool
    ensures value { result ≡ drives_line (L.Line.seats line.old) }
    ensures after { L.Line.seats line.new ≡ sent_bit true (L.Line.seats line.old) }
{
    let level = line.drive();
    line.slot(level);
    level
}

// Sends a byte, its lowest bit first.
pub fn send_byte<L: Line>(line: &mut L, byte: u8)
    ensures after { L.Line.seats line.new ≡ sent (bits_in byte) (L.Line.seats line.old) }
    ensures quiet { Quiet (bits_in byte) (L.Line.seats line.old) → L.Line.seats line.new ≡ map (played (slots (bits_in byte))) (L.Line.seats line.old) }
{
    send_bits(line, &bits_of(byte));
}

// Sends bits, the first first.
pub(crate) fn send_bits<L: Line>(line: &mut L, bits: &[bool])
    ensures after { L.Line.seats line.new ≡ sent bits.now (L.Line.seats line.old) }
    ensures quiet { Quiet bits.now (L.Line.seats line.old) → L.Line.seats line.new ≡ map (played (slots bits.now)) (L.Line.seats line.old) }
{
    for bit in bits {
        send_bit(line, *bit);
    }
}

// Reads a byte, its lowest bit first.
pub fn read_byte<L: Line>(line: &mut L) -> u8
    ensures value { result ≡ read_value 8 (L.Line.seats line.old) }
    ensures after { L.Line.seats line.new ≡ read_on 8 (L.Line.seats line.old) }
{
    read_bits(line)
}

// Its proof goes step by step; the public call's does not.
fn read_bits<L: Line>(line: &mut L) -> u8
    ensures value { result ≡ read_value 8 (L.Line.seats line.old) }
    ensures after { L.Line.seats line.new ≡ read_on 8 (L.Line.seats line.old) }
{
    let mut byte = 0;
    // counted, since the number of a bit is its weight
    for k in 0..8u8 {
        let level = read_bit(line);
        byte = with_bit(k, level, byte);
    }
    byte
}
