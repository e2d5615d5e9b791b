//! A whole job on a board just opened: the job is checked, then every call is made, and each fills one record of the caller's answer
//! table. Neither the board nor the job reader sees the other.
#![tactic(auto)]

pub mod player;
pub mod refused;

pub use player::play_job;
pub use refused::RefusedJob;
