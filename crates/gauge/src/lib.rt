// What a pack measures: counts, registers, and the charge that it accumulates.
#![tactic(auto)]

mod accumulate;
mod accumulator;
mod cases;
mod charge;
mod count;
mod counts;
mod measure;
mod registers;

pub use accumulator::{Accumulator, Half};
pub use cases::worked_cases;
pub use counts::Counts;
pub use measure::{Bias, Measurement, Refusal};
