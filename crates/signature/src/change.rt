//! A change that can be made to any signature. The type stands apart from the functions that make changes, since the
//! definitions that their contracts cite name the type.

pub mod apply;

/// One change of a signature, with any numbers: those outside the ranges alter no set.
#[derive(Clone, Copy, PartialEq, Eq, Debug)]
pub enum Change {
    /// A word (second) is put into a core's set (first).
    Put(u8, u16),
    /// A core's set (first) takes in another core's (second).
    TakeIn(u8, u8),
    /// A core's set is cleared.
    Clear(u8),
}
