// All that a DS2760 holds besides its address and its stage on the line.
ghost use Rattle.std.specs.Prelude.{◌≡◌, true};
ghost use Rattle.ds2760.specs.Soundness.{underway, copies};

use crate::block::Locks;
use crate::progress::{Copying, Progress};
use gauge::Accumulator;

#[derive(Clone, Copy)]
pub struct Store {
    pub(crate) protection: u8,
    pub(crate) status: u8,
    pub(crate) lock: bool,
    pub(crate) locks: Locks,
    pub(crate) copying: Option<Copying>,
    // the registers as the map has them: a group would be taken apart again
    pub(crate) voltage: [u8; 2],
    pub(crate) current: [u8; 2],
    pub(crate) temperature: [u8; 2],
    pub(crate) accumulator: Accumulator,
    // the memory has the size that the chip has
    pub(crate) shadow: [u8; 32],
    pub(crate) eeprom: [u8; 32],
    pub(crate) sram: [u8; 16],
    pub(crate) progress: Progress,
    ghost copies: { copies locks.zero locks.one copying ≡ true },
    ghost underway: { underway progress ≡ true },
}
