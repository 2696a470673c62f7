// How a pass goes over a line.
use crate::opens::Opens;
use address::Address;

// What a walk that came to its end read.
#[derive(Clone, Copy)]
pub(crate) struct Reading {
    pub(crate) address: Address,
    // with the bits opened on the way
    pub(crate) opens: Opens,
}

// Why a walk did not come to its end.
#[derive(Clone, Copy, PartialEq, Eq, Debug)]
pub(crate) enum Stop {
    // the reset was answered "empty"
    Silent,
    // the value told at this bit was not answered
    At { bit: u8 },
}
