// A simulated DS2760's memory: what a chosen pack does with slots, ticks and measurements.
#![tactic(auto)]

mod block;
mod blocks;
mod command;
mod commands;
mod measure;
mod memory;
mod partial;
mod progress;
mod store;

pub use store::Store;
