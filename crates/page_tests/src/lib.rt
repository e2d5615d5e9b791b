//! Page stores at work: two proved examples over lent bytes, and the tests of the stores.
#![tactic(auto)]

pub mod examples;
#[cfg(test)]
mod tests;
