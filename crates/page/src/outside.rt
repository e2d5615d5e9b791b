//! The one refusal of a page store.

/// A place is not below the size of the page.
#[derive(Clone, Copy, PartialEq, Eq, Debug)]
pub struct Outside;
