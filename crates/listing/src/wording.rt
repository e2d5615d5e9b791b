//! The wording of a job's text: the line of its figures, of a call and of its fault.
ghost use Rattle.std.specs.Prelude.{◌≡◌, ◌<◌, IfOk, Some, string_bytes};
ghost use Rattle.call.specs.Figures.{figures as numbers_of};
ghost use Rattle.lines.specs.Lines.{fault_line};
ghost use Rattle.listing.specs.Lines.{figures_line, strip_text, plan_text, call_line};

use call::{Call, FaultTold, Figures, JobFault};
use std::alloc::{AllocError, Global};
use std::fmt;

// The line of a job's figures and the number of its records.
pub(crate) fn figures_line(
    heap: Global,
    figures: &Figures,
    records: u16,
) -> Result<String, AllocError>
    ensures { IfOk result (λ s. string_bytes s ≡ figures_line (numbers_of figures.now) records) }
{
    format!(in heap;
        "cores {} slots {} words {} strip {} allowance {} records {records}\n",
        figures.cores(),
        figures.slots(),
        figures.words(),
        figures.strip(),
        figures.allowance()
    )
}

/// The line of a job's fault: its number, its place and the number inside.
pub fn fault_line(heap: Global, fault: JobFault) -> Result<String, AllocError>
    ensures { IfOk result (λ s. string_bytes s ≡ fault_line fault) }
{
    let FaultTold {
        number,
        place,
        inner,
    } = FaultTold::from(fault);
    format!(in heap; "refused {number} {place} {inner}\n")
}

// A strip and its mode by their numbers. A read-only strip, mode 0, prints nothing.
#[derive(Drop)]
struct Strip {
    number: u8,
    mode: u8,
}

impl fmt::Display for Strip {
    ghost output = { λ s. Some (strip_text s.number s.mode) };

    fn fmt<W: fmt::Write>(&self, f: &mut fmt::Formatter<W>) -> fmt::Result {
        let Strip { number, mode } = *self;
        match mode {
            0 => Ok(()),
            1 => write!(f, " {number} written"),
            2..=7 => write!(f, " {number} mode-{mode}"),
            _ => write!(f, " {number} locked-{}", mode - 8),
        }
    }
}

// A plan, printed as its strips with their modes, four bits each, the first strip first.
#[derive(Drop)]
struct Plan(u64);

impl fmt::Display for Plan {
    ghost output = { λ p. Some (plan_text p.0) };

    fn fmt<W: fmt::Write>(&self, f: &mut fmt::Formatter<W>) -> fmt::Result {
        if self.0 == 0 {
            return write!(f, " none");
        }
        for number in 0..16u8 {
            let mode = ((self.0 >> (4 * number)) % 16) as u8;
            write!(f, "{}", Strip { number, mode })?;
        }
        Ok(())
    }
}

// A call with its number among the job's calls, printed as its line.
#[derive(Drop)]
pub(crate) struct Numbered {
    pub(crate) number: usize,
    pub(crate) call: Call,
}

impl fmt::Display for Numbered {
    ghost output = { λ n. Some (call_line n.number n.call) };

    fn fmt<W: fmt::Write>(&self, f: &mut fmt::Formatter<W>) -> fmt::Result {
        let number = self.number;
        match self.call {
            Call::Load(core, word) => write!(f, "{number} core {core} load word {word}\n"),
            Call::Store(core, word, value) => {
                write!(f, "{number} core {core} store word {word} value {value}\n")
            }
            Call::Evict(core, word) => write!(f, "{number} core {core} evict word {word}\n"),
            Call::Acquire(core, lock) => write!(f, "{number} core {core} acquire lock {lock}\n"),
            Call::Release(core, lock) => write!(f, "{number} core {core} release lock {lock}\n"),
            Call::Phase(plan) => {
                write!(
                    f,
                    "{number} conductor phase plan {plan} strips{}\n",
                    Plan(plan)
                )
            }
            Call::Settle => write!(f, "{number} conductor settle\n"),
        }
    }
}
