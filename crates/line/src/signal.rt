// What a master gives a line.
#[derive(Clone, Copy, PartialEq, Eq, Debug)]
pub enum Signal {
    // a reset
    Reset,
    // a slot with this level
    Slot { level: bool },
}
