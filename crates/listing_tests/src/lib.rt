// The tests of the listing.
#![tactic(auto)]

#[cfg(test)]
mod tests;
