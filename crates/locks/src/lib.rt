//! The eight locks of a board: who holds each, who waits for it in turn, and who released it last. Nothing here knows of
//! caches, pages or signatures.
#![tactic(auto)]

mod attendance;
pub mod grant;
mod row;
pub mod table;

pub use grant::Grant;
pub use table::Locks;
