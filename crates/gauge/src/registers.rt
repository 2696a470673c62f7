// The registers that hold the counts.
ghost use Rattle.std.specs.Prelude.{◌≡◌, pos, ◌*ℤ◌, slice_index};
ghost use Rattle.gauge.specs.Held.{voltage_of, current_of, temperature_of};
ghost use Rattle.gauge.specs.Registers.{register, decoded};

use crate::counts::Counts;

// The three registers, each by its name: which one it is no caller works out.
impl Counts {
    // The voltage register: the count times 32, the higher byte first.
    pub fn voltage_register(&self) -> [u8; 2]
        ensures value { result ≡ register (voltage_of self.now *ℤ pos 32) }
        ensures decodes { decoded (slice_index result 0) (slice_index result 1) ≡ voltage_of self.now *ℤ pos 32 }
    {
        self.voltage.register()
    }

    // The current register: the count times 8, the higher byte first.
    pub fn current_register(&self) -> [u8; 2]
        ensures value { result ≡ register (current_of self.now *ℤ pos 8) }
        ensures decodes { decoded (slice_index result 0) (slice_index result 1) ≡ current_of self.now *ℤ pos 8 }
    {
        self.current.register()
    }

    // The temperature register: the count times 32, the higher byte first.
    pub fn temperature_register(&self) -> [u8; 2]
        ensures value { result ≡ register (temperature_of self.now *ℤ pos 32) }
        ensures decodes { decoded (slice_index result 0) (slice_index result 1) ≡ temperature_of self.now *ℤ pos 32 }
    {
        self.temperature.register()
    }
}
