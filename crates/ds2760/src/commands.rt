// What a chosen pack does with slots, and what a reset and a measurement do.
ghost use Rattle.std.specs.Prelude.{◌≡◌, ◌<◌, ◌≤◌, true, false, [], Ok};
ghost use Rattle.ds2760.specs.Commands.{opcode_taken, asked, next_of, read_byte, read_on, data_taken, taken, slotted, drives, after_reset, made};
ghost use Rattle.ds2760.specs.Effects.{Whole, WritesReadBack, RecallsRestore};
ghost use Rattle.ds2760.specs.Meaning.{state_of};
ghost use Rattle.ds2760.specs.Runs.{Lawful, Follows, RunsAreLawful, slot, reset};
ghost use Rattle.ds2760.specs.Soundness.{waits};

use crate::block::{Block, Locks};
use crate::blocks::status_in;
use crate::command::Command;
use crate::partial::Partial;
use crate::progress::{Driven, Progress};
use crate::store::Store;
use gauge::Accumulator;

// The address after this one, to one past FFh.
fn next(address: u16) -> u16
    ensures value { result ≡ next_of address }
    ensures bound { result ≤ 256 }
{
    address.saturating_add(1).min(256)
}

impl Store {
    // A new store with these EEPROM bytes, in address order. Both blocks are recalled.
    #[tactic(auto, using(crate::proofs::Runs::new_is_lawful, crate::proofs::Runs::runs_are_lawful))]
    pub fn new(eeprom: [u8; 32]) -> Store
        ensures made { state_of result ≡ made eeprom }
        ensures lawful { Lawful eeprom [] (state_of result) }
        ensures runs { RunsAreLawful }
    {
        Store {
            protection: 0,
            status: status_in(&eeprom),
            lock: false,
            locks: Locks {
                zero: false,
                one: false,
            },
            copying: None,
            voltage: [0; 2],
            current: [0; 2],
            temperature: [0; 2],
            accumulator: Accumulator::new(),
            shadow: eeprom,
            eeprom,
            sram: [0; 16],
            progress: Progress::Opcode(Partial::new()),
        }
    }

    // The level that a chosen pack drives.
    pub fn drive(&self) -> bool
        ensures { result ≡ drives (state_of self.now) }
    {
        match self.progress {
            Progress::Reading(driven) => (self.read_byte(driven) >> driven.count) % 2 == 1,
            _ => true,
        }
    }

    // The byte that is read: from its first bit's slot on it is fixed.
    fn read_byte(&self, driven: Driven) -> u8
        ensures { result ≡ read_byte driven (state_of self.now) }
    {
        driven.byte.unwrap_or_else(|| self.held(driven.address))
    }

    // Gives a chosen pack a slot with this level.
    #[tactic(auto, using(crate::proofs::Runs::follows, crate::proofs::Effects::writes_read_back, crate::proofs::Effects::recalls_restore))]
    pub fn slot(&mut self, level: bool)
        ensures after { state_of self.new ≡ slotted level (state_of self.old) }
        ensures lawful { Follows (slot level) (state_of self.old) (state_of self.new) }
        ensures writes { WritesReadBack }
        ensures recalls { RecallsRestore }
        ensures whole { Whole (state_of self.old) }
    {
        self.whole();
        self.take(level);
    }

    // Begins a copy that waits, and takes the slot's level, by how far the command has come.
    fn take(&mut self, level: bool)
        ensures { state_of self.new ≡ slotted level (state_of self.old) }
    {
        self.start_copy();
        match self.progress {
            Progress::Opcode(partial) => match partial.push(level) {
                Ok(opcode) => self.take_opcode(opcode),
                Err(partial) => self.progress = Progress::Opcode(partial),
            },
            Progress::Address(command, partial) => match partial.push(level) {
                Ok(address) => self.ask(command, address),
                Err(partial) => self.progress = Progress::Address(command, partial),
            },
            Progress::Reading(driven) => self.go_on_reading(driven),
            Progress::Writing(address, partial) => match partial.push(level) {
                Ok(byte) => self.take_data(address, byte),
                Err(partial) => self.progress = Progress::Writing(address, partial),
            },
            Progress::Finished => {}
        }
    }

    // Gives a reset: the progress through a command ends, and a copy that waits begins.
    #[tactic(auto, using(crate::proofs::Runs::follows))]
    pub fn reset(&mut self)
        ensures after { state_of self.new ≡ after_reset (state_of self.old) }
        ensures lawful { Follows reset (state_of self.old) (state_of self.new) }
    {
        self.start_copy();
        self.progress = Progress::Opcode(Partial::new());
    }

    // What an opcode does: an address follows that of a command.
    fn take_opcode(&mut self, opcode: u8)
        ensures { state_of self.new ≡ opcode_taken (Ok opcode) (state_of self.old) }
    {
        match Command::try_from(opcode) {
            Ok(command) => self.progress = Progress::Address(command, Partial::new()),
            Err(_) => self.progress = Progress::Finished,
        }
    }

    // What a command does at the last bit of its address.
    fn ask(&mut self, command: Command, address: u8)
        requires { waits self.old.copying ≡ false }
        ensures { state_of self.new ≡ asked command address (state_of self.old) }
    {
        self.progress = Progress::Finished;
        match (command, Block::holding(address)) {
            (Command::Read, _) => self.progress = Progress::Reading(Driven::new(address as u16)),
            (Command::Write, _) => {
                self.progress = Progress::Writing(address as u16, Partial::new())
            }
            (Command::Copy, Some(block)) => self.ask_copy(block),
            (Command::Recall, Some(block)) => self.ask_recall(block),
            (Command::Lock, Some(block)) => self.ask_lock(block),
            (_, None) => {}
        }
    }

    // Goes on to the next bit, or to the next address.
    fn go_on_reading(&mut self, driven: Driven)
        requires { driven.address ≤ 256 }
        ensures { state_of self.new ≡ read_on driven (state_of self.old) }
    {
        if driven.count < 7 {
            self.progress = Progress::Reading(Driven {
                address: driven.address,
                count: driven.count + 1,
                byte: Some(self.read_byte(driven)),
            });
        } else {
            self.progress = Progress::Reading(Driven::new(next(driven.address)));
        }
    }

    // Writes a byte, and goes on to the next address.
    fn take_data(&mut self, address: u16, byte: u8)
        ensures { state_of self.new ≡ data_taken address (Ok byte) (state_of self.old) }
    {
        self.write(address, byte);
        self.progress = Progress::Writing(next(address), Partial::new());
    }
}
