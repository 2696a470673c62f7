// A count of whole units, within its limits.
ghost use Rattle.std.specs.Prelude.{◌≡◌, ◌^◌, pos, ◌-ℤ◌, ◌*ℤ◌, ◌≤ℤ◌, slice_index};
ghost use Rattle.gauge.specs.Registers.{register, decoded, Fits};
ghost use Rattle.gauge.specs.Measures.{floor, limited};

// From -BELOW to ABOVE. Its register has it SHIFT bits up.
#[derive(Clone, Copy, PartialEq, Eq, Debug)]
pub struct Count<const BELOW: u16, const ABOVE: u16, const SHIFT: u32> {
    pub(crate) units: i16,
    ghost low: { (pos 0 -ℤ pos BELOW) ≤ℤ units },
    ghost high: { units ≤ℤ pos ABOVE },
    ghost fits: { Fits BELOW ABOVE SHIFT },
}

pub type Voltage = Count<0, 1023, 5>;

pub type Current = Count<4096, 4095, 3>;

pub type Temperature = Count<1024, 1023, 5>;

impl<const BELOW: u16, const ABOVE: u16, const SHIFT: u32> Count<BELOW, ABOVE, SHIFT> {
    // How many whole units the value has, rounded towards the lower number, within the limits.
    pub(crate) fn of(value: i64, unit: i64) -> Self
        requires unit { pos 1 ≤ℤ unit }
        requires fits { Fits BELOW ABOVE SHIFT }
        ensures { result.units ≡ limited (pos 0 -ℤ pos BELOW) (pos ABOVE) (floor value unit) }
    {
        Count::limited(value.div_euclid(unit))
    }

    // The count without the bias, within the limits.
    pub(crate) fn less(self, bias: i8) -> Self
        ensures { result.units ≡ limited (pos 0 -ℤ pos BELOW) (pos ABOVE) (self.entry.units -ℤ bias) }
    {
        Count::limited(self.without(bias))
    }

    fn without(self, bias: i8) -> i64
        ensures { result ≡ self.entry.units -ℤ bias }
    {
        i64::from(self.units) - i64::from(bias)
    }

    // The count, or the limit that it passes.
    fn limited(count: i64) -> Self
        requires { Fits BELOW ABOVE SHIFT }
        ensures { result.units ≡ limited (pos 0 -ℤ pos BELOW) (pos ABOVE) count }
    {
        Count {
            units: count.clamp(-(BELOW as i64), ABOVE as i64) as i16,
        }
    }

    // The count, SHIFT bits up, the higher byte first.
    pub(crate) fn register(self) -> [u8; 2]
        ensures value { result ≡ register (self.entry.units *ℤ pos (2 ^ SHIFT)) }
        ensures decodes { decoded (slice_index result 0) (slice_index result 1) ≡ self.entry.units *ℤ pos (2 ^ SHIFT) }
    {
        self.scaled().to_be_bytes()
    }

    #[tactic(auto, using(crate::proofs::Shifts::shifted))]
    fn scaled(self) -> i16
        ensures { result ≡ self.entry.units *ℤ pos (2 ^ SHIFT) }
    {
        self.units << SHIFT
    }
}
