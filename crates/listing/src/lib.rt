//! The text of a job: its figures and its calls in plain words, or the one line of its fault.
#![tactic(auto)]

ghost use Rattle.std.specs.Prelude.{◌≡◌, ◌<◌, ◌++◌, length, IfOk, string_bytes};
ghost use Rattle.job.specs.Jobs.{rest, calls_of, verdict_of};
ghost use Rattle.listing.specs.Laws.{LinesApart};
ghost use Rattle.listing.specs.Lines.{call_lines, text_of, job_text};

use job::Job;
use std::alloc::{AllocError, Global};
use wording::{Numbered, figures_line};

mod wording;

pub use wording::fault_line;

// A text with the lines of the calls that a job has still to give, numbered from 1.
fn with_calls(mut text: String, job: Job<'_>) -> Result<String, AllocError>
    requires { length (rest job) < 65536 }
    ensures { IfOk result (λ s. string_bytes s ≡ string_bytes text ++ call_lines 1 (rest job.entry)) }
{
    for (index, call) in job.enumerate() {
        let number = index + 1;
        write!(text, "{}", Numbered { number, call })?;
    }
    Ok(text)
}

// The text of a job of which no call was read yet.
#[tactic(auto, using(crate::proofs::Apart::lines_apart))]
fn text_of(heap: Global, job: Job<'_>) -> Result<String, AllocError>
    requires { rest job ≡ calls_of job }
    ensures value { IfOk result (λ s. string_bytes s ≡ text_of (verdict_of job.entry) (calls_of job.entry)) }
    ensures apart { LinesApart }
{
    match job.figures() {
        Ok(figures) => {
            let text = figures_line(heap, &figures, job.records())?;
            with_calls(text, job)
        }
        Err(fault) => fault_line(heap, fault),
    }
}

/// The text of a job: the line of its figures and a line for each call, or the one line of its first fault. Different calls,
/// and calls at different numbers, never have the same line.
pub fn job_text(heap: Global, bytes: &[u8]) -> Result<String, AllocError>
    ensures value { IfOk result (λ s. string_bytes s ≡ job_text bytes.now) }
    ensures apart { LinesApart }
{
    text_of(heap, Job::open(bytes))
}

#[cfg(test)]
mod tests {
    use super::*;
    use call::{FigureFault, JobFault};

    #[test]
    fn line_of_a_fault(rt: HostRuntime) -> Result<(), AllocError> {
        let line = fault_line(rt.alloc(), JobFault::Figures(FigureFault::Strip))?;
        assert!(rt; line.as_str() == "refused 20 4 17\n");
        Ok(())
    }
}
