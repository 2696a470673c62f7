// What an address drives at a stage, and where the stages lead.
ghost use Rattle.std.specs.Prelude.{◌≡◌, ◌+◌, ◌^◌, ◌<◌, ◌≤◌, true, if◌then◌else◌, nat_lt};
ghost use Rattle.address.specs.Parts.{number};
ghost use Rattle.line.specs.Stages.{sound, drives_stage, with_bit, led};
ghost use Rattle.line.specs.declared.stage.Stage.TheVariants.{Command, Chosen};

use crate::command::AddressCommand;
use crate::stage::{Stage, Turn};
use address::Address;

impl Stage {
    // The level that the address drives at this stage.
    pub(crate) fn drives(self, address: Address) -> bool
        ensures { result ≡ drives_stage (number address) self }
    {
        match self {
            Stage::Search {
                bit,
                turn: Turn::Bit,
            } => address.bit(u32::from(bit)),
            Stage::Search {
                bit,
                turn: Turn::Opposite,
            } => !address.bit(u32::from(bit)),
            Stage::Tell { bit } => address.bit(u32::from(bit)),
            _ => true,
        }
    }

    // Where a command of eight bits leads.
    fn led(byte: u8) -> Stage
        ensures value { result ≡ led byte }
        ensures sound { sound result ≡ true }
    {
        match AddressCommand::try_from(byte) {
            Ok(AddressCommand::Search) => Stage::Search {
                bit: 0,
                turn: Turn::Bit,
            },
            Ok(AddressCommand::Match) => Stage::Match { bit: 0 },
            Ok(AddressCommand::Read) => Stage::Tell { bit: 0 },
            Ok(AddressCommand::Skip) => Stage::Chosen,
            Err(_) => Stage::Deaf,
        }
    }
}

// The stage of a command with one bit more.
pub(crate) fn commanded(count: u8, level: bool, bits: u8) -> Stage
    requires count { count < 8 }
    requires bits { bits < 2 ^ count }
    ensures value { result ≡ (if nat_lt count 7 then Command (count + 1) (with_bit count level bits) else led (with_bit count level bits)) }
    ensures sound { sound result ≡ true }
{
    let bits = with_bit(count, level, bits);
    if count < 7 {
        let count = count + 1;
        Stage::Command { count, bits }
    } else {
        Stage::led(bits)
    }
}

// The stage at the next bit, or chosen after the last.
pub(crate) fn onward<F: Fn(u8) -> Stage>(bit: u8, at: F) -> Stage
    requires { (k : _) → F.pre at k }
    ensures next { bit < 63 → F.post at (bit + 1) result }
    ensures last { 63 ≤ bit → result ≡ Chosen }
{
    if bit < 63 { at(bit + 1) } else { Stage::Chosen }
}

// The level as bit k of what came before.
pub(crate) fn with_bit(count: u8, level: bool, bits: u8) -> u8
    requires count { count < 8 }
    requires bits { bits < 2 ^ count }
    ensures value { result ≡ with_bit count level bits }
    ensures bound { result < 2 ^ (count + 1) }
{
    if level { bits + (1 << count) } else { bits }
}
