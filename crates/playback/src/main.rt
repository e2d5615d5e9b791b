//! Reads a job from standard input, at most 65,536 bytes, plays it on a bank over a table, all words 0, with the Bloom signature, and
//! prints a line for each call, or the one line of the job's first fault.
#![tactic(auto)]

use call::{Answer, AnswerRecord, Kind};
use input::read_job;
use std::io;
use std::io::Write;
use transcript::write_transcript;

/// The most calls that a job can have.
const MOST: usize = 4_608;

/// The room for their lines: 48 bytes each.
const ROOM: usize = 221_184;

// What a record of the answer table holds before it is filled.
fn unfilled() -> AnswerRecord {
    AnswerRecord {
        caller: 0,
        kind: Kind::Settle,
        answer: Ok(Answer::Done(0)),
    }
}

fn main(rt: HostRuntime) -> io::Result<()> {
    let heap = rt.alloc();
    let job = read_job(heap, rt.stdin())?;
    let mut answers = vec![in heap; unfilled(); MOST]?;
    let mut lines = vec![in heap; 0u8; ROOM]?;
    match write_transcript(&job, &mut answers, &mut lines).size {
        Some(length) => rt.stdout().write_all(&lines[0..length]),
        None => Ok(()),
    }
}
