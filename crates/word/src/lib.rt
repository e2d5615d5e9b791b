//! Words of the page and their marks, as the types that every other crate builds on.
#![tactic(auto)]

pub mod group;
pub mod mark;
pub mod word;

pub use mark::{Mark, NoMark};
pub use word::Word;
