//! The player of jobs.
ghost use Rattle.std.specs.Prelude.{◌≡◌, ◌≤◌, length};
ghost use Rattle.board.specs.Runs.{Plays};
ghost use Rattle.job.specs.Jobs.{calls_of, numbers, rest, verdict_of};
ghost use Rattle.play.specs.Playing.{checked_with, verdict, PlaysJob};

use crate::refused::RefusedJob;
use board::{Board, Run};
use call::{AnswerRecord, Figures, JobFault};
use job::Job;
use page::PageStore;
use signature::Signature;

// The figures of a job whose calls all have room in a table of this length, else its first fault; the table is checked last.
fn check_room(job: &Job<'_>, room: usize) -> Result<Figures, JobFault>
    ensures { numbers result ≡ checked_with (verdict_of job.now) (calls_of job.now) room }
{
    let figures = job.figures()?;
    if room < job.records() as usize {
        return Err(JobFault::Table);
    }
    Ok(figures)
}

// Makes the calls of a job in turn, each with its record in the table: how many.
fn play_all<P: PageStore, S: Signature>(
    board: &mut Board<P, S>,
    job: Job<'_>,
    answers: &mut [AnswerRecord],
) -> usize
    requires { (rest job ≡ calls_of job) × (length (calls_of job) ≤ length answers.old) }
    ensures made { result ≡ length (calls_of job.entry) }
    ensures plays { Plays P.words S.operations board.old board.new (calls_of job.entry) answers.old answers.new }
{
    let made = job.records() as usize;
    for (at, call) in job.enumerate() {
        answers[at] = board.record(call);
    }
    made
}

/// Plays a job. The whole of it is checked before the first call: it is accepted exactly when its bytes have the layout, its figures pass
/// and the table has room for its answers. Each call, accepted or refused, then fills one record of the table, and later records
/// keep their contents. A refused job leaves page, signature and table as they were handed in, and page and signature are given back. What
/// is played is a run, and of it all laws of runs hold, of two runs with every other run.
pub fn play_job<P: PageStore, S: Signature>(
    bytes: &[u8],
    page: P,
    signature: S,
    answers: &mut [AnswerRecord],
) -> Result<Run<P, S>, RefusedJob<P, S>>
    ensures { PlaysJob P.words S.operations page signature answers.old answers.new (verdict bytes.now (length answers.old)) result }
{
    let job = Job::open(bytes);
    match check_room(&job, answers.len()) {
        Ok(figures) => {
            let mut board = Board::open(figures, page, signature);
            let made = play_all(&mut board, job, answers);
            Ok(Run { board, made })
        }
        Err(fault) => Err(RefusedJob {
            page,
            signature,
            fault,
        }),
    }
}
