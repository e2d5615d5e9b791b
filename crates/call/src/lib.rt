//! The vocabulary of the board: its figures, the calls, their answers and refusals, and the faults of a job. Every
//! other crate speaks in these types; nothing here knows of pages, signatures, caches or laws.
#![tactic(auto)]

pub mod answer;
pub mod call;
pub mod fault;
pub mod figures;
pub mod refusal;

pub use answer::{Answer, AnswerRecord, Told};
pub use call::{Call, Kind};
pub use fault::{FaultTold, FigureFault, JobFault};
pub use figures::Figures;
pub use refusal::{Access, Refusal};
