//! How the programs read a job: the input up to the length of the longest one; and how a lent buffer is filled from any input.
#![tactic(auto)]

ghost use Rattle.std.specs.Prelude.{◌≡◌, ◌≤◌, length, take, vec_len, IfOk, IfSome};

use std::alloc::Global;
use std::io;
use std::io::Read;

/// A job is at most this long; what the input has past it is not read.
pub const LONGEST: usize = 65_536;

/// Reads into `buffer` until it is full or the input ends, and gives how many bytes were read. It needs no heap.
pub fn fill(input: &mut impl Read, buffer: &mut [u8]) -> io::Result<usize>
    ensures { IfOk result (λ n. n ≤ length buffer.old) }
{
    let mut filled = 0;
    while filled < buffer.len() {
        let more = input.read(&mut buffer[filled..])?;
        if more == 0 {
            break;
        }
        filled += more;
    }
    Ok(filled)
}

/// Reads a job: all of the input, or its first 65,536 bytes where it is longer.
pub fn read_job<R: Read + Drop>(heap: Global, input: R) -> io::Result<Vec<u8>>
    ensures bytes { IfSome (R.remaining input) (λ given. IfOk result (λ job. job.items ≡ take 65536 given)) }
    ensures most { IfOk result (λ job. vec_len job ≤ 65536) }
{
    // A byte more than the longest job has: where the input reaches the limit, the read that meets it asks for no more memory.
    let mut job = Vec::with_capacity(heap, LONGEST + 1)?;
    input.take(LONGEST as u64).read_to_end(&mut job)?;
    // No clause says of every reader that `take` holds it to the limit: here it is said of what was read.
    job.truncate(LONGEST);
    Ok(job)
}

// Readers over memory, at both sides of the longest job.
#[cfg(test)]
mod tests {
    use super::*;

    #[test]
    fn a_buffer_is_filled(rt: HostRuntime) -> io::Result<()> {
        let mut given: &[u8] = b"a job";
        let mut buffer = [b'.'; 3];
        assert!(rt; fill(&mut given, &mut buffer)? == 3);
        assert!(rt; buffer == *b"a j");
        assert!(rt; fill(&mut given, &mut buffer)? == 2);
        assert!(rt; buffer == *b"obj");
        Ok(())
    }

    #[test]
    fn all_of_a_short_input(rt: HostRuntime) -> io::Result<()> {
        let given: &[u8] = b"a job";
        let job = read_job(rt.alloc(), given)?;
        assert!(rt; job.as_slice() == given);
        Ok(())
    }

    #[test]
    fn no_more_than_the_longest(rt: HostRuntime) -> io::Result<()> {
        let given = vec![in rt.alloc(); 7u8; LONGEST + 9]?;
        let job = read_job(rt.alloc(), given.as_slice())?;
        assert!(rt; job.len() == 65_536);
        assert!(rt; job.iter().all(|byte| *byte == 7));
        Ok(())
    }
}
