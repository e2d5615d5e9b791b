//! The text that playback prints for a job: a line for each call, or the one line of the job's fault.
#![tactic(auto)]

ghost use Rattle.std.specs.Prelude.{◌≡◌, ◌≤◌, length, IfSome};
ghost use Rattle.play.specs.Playing.{verdict, PlaysJob};
ghost use Rattle.transcript.specs.Transcripts.{text_of, fields_of, outcome_text, outcome_fields, transcript, PlaysFresh, Within, Written};

use board::Run;
use call::AnswerRecord;
use lines::{write_fault_line, write_lines};
use page::{Bank, PageStore, Table};
use play::{RefusedJob, play_job};
use signature::{Bloom, Signature};

/// What was played and written: what became of the job, and the length of the text, if the buffer has room for it.
#[derive(Drop)]
pub struct Transcript<P, S> {
    pub outcome: Result<Run<P, S>, RefusedJob<P, S>>,
    pub size: Option<usize>,
}

// Writes the text of what became of a job: the lines of the records that it filled, or the line of its fault.
fn write_outcome<P, S>(
    outcome: &Result<Run<P, S>, RefusedJob<P, S>>,
    answers: &[AnswerRecord],
    out: &mut [u8],
) -> Option<usize>
    requires { Within outcome.now answers.now }
    ensures { Written (outcome_text outcome.now answers.now) out.old out.new (outcome_fields outcome.now answers.now) result }
{
    match outcome {
        Ok(run) => write_lines(out, &answers[0..run.made]),
        Err(refused) => write_fault_line(out, refused.fault),
    }
}

/// Plays a job as `play_job` does, and writes its text into the first bytes of a buffer: a line for each call, or the one line of the
/// job's fault. The buffer has room if it has 48 bytes for each line; else nothing is written, and the job is played all the same.
pub fn play_and_write<P: PageStore, S: Signature>(
    bytes: &[u8],
    page: P,
    signature: S,
    answers: &mut [AnswerRecord],
    out: &mut [u8],
) -> Transcript<P, S>
    ensures played { PlaysJob P.words S.operations page signature answers.old answers.new (verdict bytes.now (length answers.old)) result.outcome }
    ensures text { Written (text_of S.operations (P.words page) signature (verdict bytes.now (length answers.old))) out.old out.new (fields_of (verdict bytes.now (length answers.old))) result.size }
{
    let outcome = play_job(bytes, page, signature, answers);
    let size = write_outcome(&outcome, answers, out);
    Transcript { outcome, size }
}

/// Plays a job on a bank over a table, all words 0, with the empty Bloom signature, and writes what playback prints into the first bytes of
/// a buffer, if it has 48 bytes for each line. An accepted job is a run, and of it all laws of runs hold, of two runs with every
/// other run; the table of answers is filled as by `play_job`.
pub fn write_transcript(
    bytes: &[u8],
    answers: &mut [AnswerRecord],
    out: &mut [u8],
) -> Transcript<Bank<Table>, Bloom>
    ensures played { PlaysFresh answers.old answers.new (verdict bytes.now (length answers.old)) result.outcome }
    ensures text { Written (transcript bytes.now (length answers.old)) out.old out.new (fields_of (verdict bytes.now (length answers.old))) result.size }
    ensures within { IfSome result.size (λ n. n ≤ length out.old) }
{
    let page = Bank::new(Table::new());
    play_and_write(bytes, page, Bloom::new(), answers, out)
}
