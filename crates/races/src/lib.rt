//! What a phase remembers of its accesses: for each word the first loaders and the first storers, as many as are needed to tell
//! a race and to name the earliest access by another core. Forgetting a phase takes constant time, by a stamp.
#![tactic(auto)]

pub mod pair;
pub mod races;
pub mod seen;

pub use pair::Pair;
pub use races::Races;
