// The counts that a measurement gives.
use crate::count::{Current, Temperature, Voltage};

#[derive(Clone, Copy, PartialEq, Eq, Debug)]
pub struct Counts {
    pub(crate) voltage: Voltage,
    pub(crate) current: Current,
    pub(crate) temperature: Temperature,
}
