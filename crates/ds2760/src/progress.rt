// How far a store has come with a command, and with a copy.
ghost use Rattle.std.specs.Prelude.{◌≡◌};
ghost use Rattle.ds2760.specs.Commands.{unread};

use crate::block::Block;
use crate::command::Command;
use crate::partial::Partial;

// A byte that is read: its address, how many of its bits have passed, and from its first bit on the
// byte itself, which is fixed then.
#[derive(Clone, Copy, PartialEq, Eq, Debug)]
pub struct Driven {
    pub(crate) address: u16,
    pub(crate) count: u8,
    pub(crate) byte: Option<u8>,
}

impl Driven {
    // The byte at an address, before its first bit.
    pub(crate) fn new(address: u16) -> Driven
        ensures { result ≡ unread address }
    {
        Driven {
            address,
            count: 0,
            byte: None,
        }
    }
}

// What a chosen pack does with the next slot.
#[derive(Clone, Copy, PartialEq, Eq, Debug)]
pub enum Progress {
    // takes an opcode
    Opcode(Partial),
    // takes the address byte of a command
    Address(Command, Partial),
    // drives the byte at an address
    Reading(Driven),
    // takes the byte for an address
    Writing(u16, Partial),
    // ignores slots
    Finished,
}

// A copy of a block's shadow to its EEPROM.
#[derive(Clone, Copy, PartialEq, Eq, Debug)]
pub enum Copying {
    // it starts at the next slot or reset
    Waiting(Block),
    // it ends after so many ticks; EEC is 1
    Running { block: Block, ticks: u8 },
}
