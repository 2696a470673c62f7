// The EEPROM's two blocks, and their locks.
ghost use Rattle.std.specs.Prelude.{◌≡◌};
ghost use Rattle.ds2760.specs.Commands.{block_of};
ghost use Rattle.ds2760.specs.Soundness.{flag_of, with_flag};

// Sixteen bytes of EEPROM, with their shadow.
#[derive(Clone, Copy, PartialEq, Eq, Debug)]
pub enum Block {
    // 20h to 2Fh
    Zero,
    // 30h to 3Fh
    One,
}

impl Block {
    // The block that holds an address. A conversion would say that an address is a block.
    pub(crate) fn holding(address: u8) -> Option<Block>
        ensures { result ≡ block_of address }
    {
        match address {
            0x20..=0x2f => Some(Block::Zero),
            0x30..=0x3f => Some(Block::One),
            _ => None,
        }
    }
}

// Which blocks are locked: BL0 and BL1.
#[derive(Clone, Copy, PartialEq, Eq, Debug)]
pub struct Locks {
    pub(crate) zero: bool,
    pub(crate) one: bool,
}

impl Locks {
    pub(crate) fn is_set(self, block: Block) -> bool
        ensures { result ≡ flag_of self.zero self.one block }
    {
        match block {
            Block::Zero => self.zero,
            Block::One => self.one,
        }
    }

    // Sets the flag of the block for good.
    pub(crate) fn set(&mut self, block: Block)
        ensures { self.new ≡ with_flag block self.old }
    {
        match block {
            Block::Zero => self.zero = true,
            Block::One => self.one = true,
        }
    }
}
