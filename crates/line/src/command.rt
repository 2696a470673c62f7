// The address commands: what the first byte after a reset asks of the seats on the line.
ghost use Rattle.std.specs.Prelude.{◌≡◌};
ghost use Rattle.line.specs.Commands.{byte_of, Decodes};

#[derive(Clone, Copy, PartialEq, Eq, Debug)]
pub enum AddressCommand {
    // take part in a search
    Search = 0xf0,
    // listen for an address
    Match = 0x55,
    // drive the address
    Read = 0x33,
    // be chosen, whatever the address is
    Skip = 0xcc,
}

// A byte that is no address command: it leaves every seat deaf.
#[derive(Clone, Copy, PartialEq, Eq, Debug)]
pub struct UnknownCommand(pub u8);

impl AddressCommand {
    // The byte that a master sends for it.
    pub fn byte(self) -> u8
        ensures { result ≡ byte_of self }
    {
        self as u8
    }
}

impl TryFrom<u8> for AddressCommand {
    type Error = UnknownCommand;

    ghost try_from_gives = { Decodes };

    fn try_from(byte: u8) -> Result<AddressCommand, UnknownCommand> {
        match byte {
            0xf0 => Ok(AddressCommand::Search),
            0x55 => Ok(AddressCommand::Match),
            0x33 => Ok(AddressCommand::Read),
            0xcc => Ok(AddressCommand::Skip),
            _ => Err(UnknownCommand(byte)),
        }
    }
}
