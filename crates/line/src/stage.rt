// How far a seat has come on the line since the last reset.

// The three turns of a search at one bit.
#[derive(Clone, Copy, PartialEq, Eq, Debug)]
pub enum Turn {
    // drives the bit
    Bit,
    // drives the opposite
    Opposite,
    // takes the level that the master wants
    Listen,
}

#[derive(Clone, Copy, PartialEq, Eq, Debug)]
pub enum Stage {
    // ignores slots until a reset
    Deaf,
    // takes an address command; `count` bits of it have come, each at its own place in `bits`, which
    // callers see
    Command { count: u8, bits: u8 },
    // takes part in a search, at a bit
    Search { bit: u8, turn: Turn },
    // listens for its address, at a bit
    Match { bit: u8 },
    // drives its address, at a bit
    Tell { bit: u8 },
    // slots go to the store
    Chosen,
}
