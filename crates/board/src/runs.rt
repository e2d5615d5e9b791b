//! Whole runs: any list of calls on a board just opened, with the laws of runs.
ghost use Rattle.std.specs.Prelude.{◌≡◌, min, length, take};
ghost use Rattle.call.specs.Figures.{figures as numbers};
ghost use Rattle.board.specs.Runs.{Plays, Runs};

use crate::board::Board;
use call::{AnswerRecord, Call, Figures};
use page::PageStore;
use signature::Signature;

/// A run: the board as it is left, and how many calls were made.
#[derive(Drop)]
pub struct Run<P, S> {
    pub board: Board<P, S>,
    pub made: usize,
}

// Makes calls on a board in turn, as many as there are and the table has room for: their number.
fn play<P: PageStore, S: Signature>(
    board: &mut Board<P, S>,
    calls: &[Call],
    answers: &mut [AnswerRecord],
) -> usize
    ensures made { result ≡ min (length calls.now) (length answers.old) }
    ensures plays { Plays P.words S.operations board.old board.new (take result calls.now) answers.old answers.new }
{
    let most = calls.len().min(answers.len());
    for (at, call) in calls[..most].iter().enumerate() {
        answers[at] = board.record(*call);
    }
    most
}

/// Plays a list of calls, however long, on a board just opened. Each call's record stands in the caller's table, for as many calls as the
/// shorter of the two holds; later records keep their contents. It gives the board back, and how many calls were made. What it leaves
/// is by equality what the rules leave; it is a run, and of it all laws of runs hold, of two runs with every other run.
pub fn play_calls<P: PageStore, S: Signature>(
    figures: Figures,
    page: P,
    signature: S,
    calls: &[Call],
    answers: &mut [AnswerRecord],
) -> Run<P, S>
    ensures made { result.made ≡ min (length calls.now) (length answers.old) }
    ensures run { Runs P.words S.operations (numbers figures) (P.words page) signature (take result.made calls.now) answers.old answers.new result.board }
{
    let mut board = Board::open(figures, page, signature);
    let made = play(&mut board, calls, answers);
    Run { board, made }
}
