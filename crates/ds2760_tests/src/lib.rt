// The tests of the gauge and of the DS2760's store.
#![tactic(auto)]

#[cfg(test)]
mod tests;
