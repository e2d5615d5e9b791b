//! Page stores: what a page means, two stores that hold words, and a bank over any store.
#![tactic(auto)]

pub mod access;
pub mod bank;
pub mod bytes;
pub mod change;
pub mod outside;
pub mod plays;
pub mod store;
pub mod table;

pub use access::{Access, Reply};
pub use bank::Bank;
pub use bytes::Bytes;
pub use change::Change;
pub use outside::Outside;
pub use plays::{play, play_and_drain, serve};
pub use store::PageStore;
pub use table::Table;
