// What the current accumulator does with a count, and with a byte that is written.
ghost use Rattle.std.specs.Prelude.{◌≡◌, pos, negsuc, ◌+ℤ◌, ◌*ℤ◌, ◌≤ℤ◌, ◌<ℤ◌, slice_index};
ghost use Rattle.gauge.specs.Charges.{charge_of, whole, with_half, settled, added, total, capped};
ghost use Rattle.gauge.specs.Held.{current_of};
ghost use Rattle.gauge.specs.Registers.{register, decoded};

use crate::accumulator::{Accumulator, Half};
use crate::counts::Counts;

// How many parts make one step of the amount.
const STEP: i32 = 180_000;

// How many parts one current count adds.
const PARTS: i32 = 11;

// The least and the most that can be held.
const LEAST: Accumulator = Accumulator {
    amount: i16::MIN,
    residue: 0,
};

const MOST: Accumulator = Accumulator {
    amount: i16::MAX,
    residue: STEP as u32 - 1,
};

impl Accumulator {
    pub fn new() -> Accumulator
        ensures { charge_of result ≡ whole (pos 0) }
    {
        Accumulator {
            amount: 0,
            residue: 0,
        }
    }

    // Adds the current count.
    pub fn add(&mut self, counts: &Counts)
        ensures step { charge_of self.new ≡ added (current_of counts.now) (charge_of self.old) }
        ensures total { total (charge_of self.new) ≡ capped (total (charge_of self.old) +ℤ pos 11 *ℤ current_of counts.now) }
    {
        *self = self.after(counts);
    }

    fn after(&self, counts: &Counts) -> Accumulator
        ensures step { charge_of result ≡ added (current_of counts.now) (charge_of self.now) }
        ensures total { total (charge_of result) ≡ capped (total (charge_of self.now) +ℤ pos 11 *ℤ current_of counts.now) }
    {
        Accumulator::settled(self.amount, self.sum(counts))
    }

    // The residue with what the count adds.
    fn sum(&self, counts: &Counts) -> i32
        ensures value { result ≡ (charge_of self.now).residue +ℤ pos 11 *ℤ current_of counts.now }
        ensures low { negsuc 179999 ≤ℤ result }
        ensures high { result <ℤ pos 360000 }
    {
        self.residue as i32 + PARTS * i32::from(counts.current.units)
    }

    // The accumulator of an amount and a residue that is at most one step outside its range.
    fn settled(amount: i16, residue: i32) -> Accumulator
        requires low { negsuc 179999 ≤ℤ residue }
        requires high { residue <ℤ pos 360000 }
        ensures { charge_of result ≡ settled amount residue }
    {
        if residue < 0 {
            match amount.checked_sub(1) {
                Some(amount) => Accumulator {
                    amount,
                    residue: (residue + STEP) as u32,
                },
                None => LEAST,
            }
        } else if residue < STEP {
            Accumulator {
                amount,
                residue: residue as u32,
            }
        } else {
            match amount.checked_add(1) {
                Some(amount) => Accumulator {
                    amount,
                    residue: (residue - STEP) as u32,
                },
                None => MOST,
            }
        }
    }

    // The accumulator register: the amount, the higher byte first.
    pub fn register(&self) -> [u8; 2]
        ensures value { result ≡ register (charge_of self.now).amount }
        ensures decodes { decoded (slice_index result 0) (slice_index result 1) ≡ (charge_of self.now).amount }
    {
        self.amount.to_be_bytes()
    }

    // Sets one byte of the amount, and clears the residue.
    pub fn write(&mut self, half: Half, byte: u8)
        ensures { charge_of self.new ≡ whole (with_half half byte (charge_of self.old).amount) }
    {
        let [high, low] = self.register();
        let bytes = match half {
            Half::High => [byte, low],
            Half::Low => [high, byte],
        };
        (self.amount, self.residue) = (i16::from_be_bytes(bytes), 0);
    }

    // Sets the higher byte of the amount, and clears the residue.
    pub fn write_high(&mut self, byte: u8)
        ensures { charge_of self.new ≡ whole (decoded byte (slice_index (register (charge_of self.old).amount) 1)) }
    {
        self.write(Half::High, byte);
    }

    // Sets the lower byte of the amount, and clears the residue.
    pub fn write_low(&mut self, byte: u8)
        ensures { charge_of self.new ≡ whole (decoded (slice_index (register (charge_of self.old).amount) 0) byte) }
    {
        self.write(Half::Low, byte);
    }
}
