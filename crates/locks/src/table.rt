//! The eight locks and what each core does about them. The type stands apart from its methods, since the definitions that
//! the methods' contracts cite name the type.
ghost use Rattle.std.specs.Prelude.{◌≡◌, ℕ, cond, length, slice_index_or};
ghost use Rattle.rules.specs.State.{free};
ghost use Rattle.rules.specs.Tables.{is};
ghost use Rattle.locks.specs.Ties.{occurs, waits_for, holder_of};
ghost use Rattle.locks.specs.declared.attendance.Attendance.TheVariants.{Away};

use crate::attendance::Attendance;
use crate::row::Row;

pub mod methods;

/// Eight locks. What each core does is kept beside them, so that it is known without a search; a core stands in a queue just
/// once if it waits for that lock and else not at all, and it is a lock's holder just if it holds that lock.
#[derive(Drop)]
pub struct Locks {
    rows: [Row; 8],
    cores: [Attendance; 8],
    ghost eight_locks: { length rows ≡ 8 },
    ghost eight_cores: { length cores ≡ 8 },
    ghost queued: { (core lock : ℕ) → occurs core (slice_index_or rows lock free).queue ≡ cond {A = ℕ} (waits_for (slice_index_or cores core Away) lock) 1 0 },
    ghost held: { (core lock : ℕ) → is (slice_index_or rows lock free).holder core ≡ holder_of (slice_index_or cores core Away) lock },
}
