// What stands at each address.
ghost use Rattle.std.specs.Prelude.{◌≡◌};
ghost use Rattle.ds2760.specs.Map.{held, written, eec, flags};
ghost use Rattle.ds2760.specs.Effects.{Whole};
ghost use Rattle.ds2760.specs.Meaning.{state_of};

use crate::progress::Copying;
use crate::store::Store;
use gauge::Half;

impl Store {
    // The byte at an address. Reserved addresses have FFh, and so has what lies past FFh.
    pub fn held(&self, address: u16) -> u8
        ensures { result ≡ held address (state_of self.now) }
    {
        match address {
            0x00 => self.protection,
            0x01 => self.status,
            0x07 => self.flags(),
            0x08 => 0xc0,
            0x0c..=0x0d => self.voltage[address as usize - 0x0c],
            0x0e..=0x0f => self.current[address as usize - 0x0e],
            0x10..=0x11 => self.accumulator.register()[address as usize - 0x10],
            0x18..=0x19 => self.temperature[address as usize - 0x18],
            0x20..=0x3f => self.shadow[address as usize - 0x20],
            0x80..=0x8f => self.sram[address as usize - 0x80],
            _ => 0xff,
        }
    }

    // Writes a byte at an address, where it can be written.
    pub(crate) fn write(&mut self, address: u16, byte: u8)
        ensures { state_of self.new ≡ written address byte (state_of self.old) }
    {
        match address {
            0x00 => self.protection = byte & 0x03,
            0x07 => self.lock = byte & 0x40 == 0x40,
            0x10 => self.accumulator.write(Half::High, byte),
            0x11 => self.accumulator.write(Half::Low, byte),
            0x20..=0x2f if !self.locks.zero && !self.is_copying() => {
                self.shadow[address as usize - 0x20] = byte
            }
            0x30..=0x3f if !self.locks.one && !self.is_copying() => {
                self.shadow[address as usize - 0x20] = byte
            }
            0x80..=0x8f => self.sram[address as usize - 0x80] = byte,
            _ => {}
        }
    }

    // Does nothing: a caller knows that the memory is whole. A function that changes the store
    // learns it only from a call by `&self`.
    pub(crate) fn whole(&self)
        ensures { Whole (state_of self.now) }
    {
        let _amount = self.accumulator.amount();
    }

    // EEC: whether a copy runs.
    pub(crate) fn is_copying(&self) -> bool
        ensures { result ≡ eec (state_of self.now).copying }
    {
        matches!(self.copying, Some(Copying::Running { .. }))
    }

    // 07h.
    fn flags(&self) -> u8
        ensures { result ≡ flags (state_of self.now) }
    {
        let mut flags = 0;
        if self.is_copying() {
            flags += 0x80;
        }
        if self.lock {
            flags += 0x40;
        }
        if self.locks.one {
            flags += 0x02;
        }
        if self.locks.zero {
            flags += 0x01;
        }
        flags
    }
}
