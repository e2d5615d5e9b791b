//! Tests of the job reader and the encoder, on damaged and on whole jobs. They stand in a crate of their own, since a crate
//! with tests is proved twice.
#![tactic(auto)]

#[cfg(test)]
mod damaged;
#[cfg(test)]
mod whole;
