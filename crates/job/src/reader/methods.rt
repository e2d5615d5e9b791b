//! How a job is opened, and how its calls are read one after another.
ghost use Rattle.std.specs.Prelude.{◌≡◌, ◌≤◌, length, drop, IfOk, Some, None, Ok, MatchResult};
ghost use Rattle.std.specs.Iterator.{YieldsFirst, item_count};
ghost use Rattle.call.specs.Figures.{figures, checked};
ghost use Rattle.job.specs.Reading.{figures_fault, count_fault, records_fault, job_figures, records_of, job_fault, reading, calls};
ghost use Rattle.job.specs.Encoding.{encode};
ghost use Rattle.job.specs.Jobs.{numbers, verdict_of, calls_of, rest, first, figures_read, calls_read, Encoded};
ghost use Rattle.job.specs.Laws.{ReadsBack, EncodesAgain};

use super::Job;
use crate::layout::{Record, spelled_call};
use call::{Call, Figures, JobFault};

// The figures of a job, checked.
fn figures_of(bytes: &[u8]) -> Result<Figures, JobFault>
    ensures { MatchResult result (λ f. (checked (job_figures bytes.now) ≡ Ok (figures f)) × (16 ≤ length bytes.now)) (λ e. figures_fault bytes.now ≡ Some e) }
{
    let [
        cores,
        slots,
        w1,
        w0,
        z1,
        z0,
        _,
        _,
        a3,
        a2,
        a1,
        a0,
        _,
        _,
        _,
        _,
        ..
    ] = bytes
    else {
        return Err(JobFault::Short(bytes.len() as u8));
    };
    let words = u16::from_be_bytes([*w1, *w0]);
    let strip = u16::from_be_bytes([*z1, *z0]);
    let allowance = u32::from_be_bytes([*a3, *a2, *a1, *a0]);
    Ok(Figures::check(*cores, *slots, words, strip, allowance)?)
}

// The records of a job: their number stands in the contents, past two zero bytes, and the job is as long as it says.
fn records_of(bytes: &[u8]) -> Result<&[Record], JobFault>
    requires { 16 ≤ length bytes.now }
    ensures { MatchResult result (λ records. (count_fault bytes.now ≡ None) × (records.now ≡ records_of bytes.now) × (length records.now ≤ 4608)) (λ e. count_fault bytes.now ≡ Some e) }
{
    if u16::from_be_bytes([bytes[6], bytes[7]]) != 0 {
        return Err(JobFault::Reserved);
    }
    let count = u32::from_be_bytes([bytes[12], bytes[13], bytes[14], bytes[15]]);
    if count > 4_608 || bytes.len() != 16 + 13 * count as usize {
        return Err(JobFault::Length);
    }
    let (records, _) = bytes[16..].as_chunks::<13>();
    Ok(records)
}

// The first record that is against its layout.
fn check_records(records: &[Record]) -> Result<(), JobFault>
    requires { length records.now ≤ 4608 }
    ensures { MatchResult result (λ _. records_fault 16 records.now ≡ None) (λ e. records_fault 16 records.now ≡ Some e) }
{
    match records
        .iter()
        .position(|record| spelled_call(record).is_none())
    {
        Some(index) => Err(JobFault::Record(16 + 13 * index as u16)),
        None => Ok(()),
    }
}

// Checks a whole job: its figures and its records, or its first fault. What it finds in a job that is accepted encodes to the
// job again.
fn check(bytes: &[u8]) -> Result<(Figures, &[Record]), JobFault>
    ensures value { MatchResult result (λ p. (job_fault bytes.now ≡ None) × (figures p.0 ≡ job_figures bytes.now) × (p.1.now ≡ records_of bytes.now) × (length p.1.now ≤ 4608)) (λ e. job_fault bytes.now ≡ Some e) }
    ensures encoded { IfOk result (λ p. bytes.now ≡ encode (figures p.0) (calls p.1.now)) }
{
    let figures = figures_of(bytes)?;
    let records = records_of(bytes)?;
    check_records(records)?;
    Ok((figures, records))
}

impl<'a> Job<'a> {
    /// Opens a job over its bytes, and checks the whole of it. A job that is accepted is the encoding of the figures and the
    /// calls that are read from it; and what is encoded is accepted and read back.
    pub fn open(bytes: &'a [u8]) -> Job<'a>
        ensures value { verdict_of result ≡ figures_read (reading bytes.now) }
        ensures calls { calls_of result ≡ calls_read (reading bytes.now) }
        ensures start { rest result ≡ calls_of result }
        ensures encoded { Encoded (verdict_of result) (calls_of result) bytes.now }
        ensures law { ReadsBack × EncodesAgain }
    {
        match check(bytes) {
            Ok((figures, records)) => Job {
                verdict: Ok(figures),
                records,
                left: records,
            },
            Err(fault) => Job {
                verdict: Err(fault),
                records: &[],
                left: &[],
            },
        }
    }

    /// The job's figures; of a job that is refused its first fault.
    pub fn figures(&self) -> Result<Figures, JobFault>
        ensures { numbers result ≡ verdict_of self.now }
    {
        self.verdict
    }

    /// How many calls the job has, those that were read included; 0 of a job that is refused.
    #[tactic(auto, using(crate::proofs::Records::length_calls))]
    pub fn records(&self) -> u16
        ensures { result ≡ length (calls_of self.now) }
    {
        self.records.len() as u16
    }

    /// Reads the next call; none where all were read.
    #[tactic(auto, using(crate::proofs::Records::within_more, crate::proofs::Records::within_none))]
    pub fn next_call(&mut self) -> Option<Call>
        ensures value { result ≡ first (rest self.old) }
        ensures after { rest self.new ≡ drop 1 (rest self.old) }
        ensures same { (verdict_of self.new ≡ verdict_of self.old) × (calls_of self.new ≡ calls_of self.old) }
    {
        let (record, left) = self.left.split_first()?;
        self.left = left;
        spelled_call(record)
    }
}

/// A job gives the calls that are still to be read, in order.
impl Iterator for Job<'_> {
    type Item = Call;

    ghost next_gives = { YieldsFirst rest };

    ghost remaining = { item_count rest };

    // It keeps the trait's contract, on which the proof of a loop over a job rests: more is said of a call at `next_call`.
    fn next(&mut self) -> Option<Call> {
        self.next_call()
    }
}
