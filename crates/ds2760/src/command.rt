// What an opcode asks for.
ghost use Rattle.ds2760.specs.Commands.{Decodes};

#[derive(Clone, Copy, PartialEq, Eq, Debug)]
pub enum Command {
    Read,
    Write,
    Copy,
    Recall,
    Lock,
}

// An opcode of no command.
#[derive(Clone, Copy, PartialEq, Eq, Debug)]
pub struct UnknownOpcode(pub u8);

impl TryFrom<u8> for Command {
    type Error = UnknownOpcode;

    ghost try_from_gives = { Decodes };

    fn try_from(opcode: u8) -> Result<Self, UnknownOpcode> {
        match opcode {
            0x69 => Ok(Command::Read),
            0x6c => Ok(Command::Write),
            0x48 => Ok(Command::Copy),
            0xb8 => Ok(Command::Recall),
            0x6a => Ok(Command::Lock),
            _ => Err(UnknownOpcode(opcode)),
        }
    }
}
