// The tests of the rack file's reader and its text.
#![tactic(auto)]

#[cfg(test)]
mod tests;
