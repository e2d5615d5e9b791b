//! A job with a cursor. The type stands apart from its methods, since the definitions that the methods' contracts cite
//! name the type.
ghost use Rattle.std.specs.Prelude.{◌≡◌, ◌-◌, ◌≤◌, true, length, drop};
ghost use Rattle.job.specs.Reading.{none, records_fault};

use crate::layout::Record;
use call::{Figures, JobFault};

pub mod methods;

/// A job over the bytes that hold it. The whole of it is checked when it is opened, and the verdict is kept: its figures,
/// or its first fault. A job that is refused has no records. The records are parts of the bytes, and none is copied. The
/// cursor is what is left of the records to be read.
#[derive(Drop)]
pub struct Job<'a> {
    verdict: Result<Figures, JobFault>,
    records: &'a [Record],
    left: &'a [Record],
    ghost few: { length records.now ≤ 4608 },
    ghost lawful: { none (records_fault 16 records.now) ≡ true },
    ghost within: { left.now ≡ drop (length records.now - length left.now) records.now },
}
