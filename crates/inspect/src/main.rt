//! Reads a job from standard input, at most 65,536 bytes, and prints it in plain words: its figures on a line and then a line
//! for each call, or the one line of its first fault.
#![tactic(auto)]

use input::read_job;
use listing::job_text;
use std::io;
use std::io::Write;

fn main(rt: HostRuntime) -> io::Result<()> {
    let heap = rt.alloc();
    let job = read_job(heap, rt.stdin())?;
    let text = job_text(heap, &job)?;
    rt.stdout().write_all(text.as_bytes())
}
