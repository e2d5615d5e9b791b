//! Jobs: a reader over a job's bytes, and an encoder into them. It knows of figures and calls, and nothing of boards,
//! pages or signatures.
#![tactic(auto)]

pub mod encoder;
mod layout;
pub mod reader;

pub use encoder::encode;
pub use reader::Job;
