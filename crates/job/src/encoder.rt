//! The encoder: from figures and calls to the bytes of a job.
ghost use Rattle.std.specs.Prelude.{◌≡◌, ◌+◌, ◌*◌, ◌≤◌, true, ◌++◌, length, drop, if◌then◌else◌, Some, None, Ok, OnSome};
ghost use Rattle.std.specs.List.{flat_map, AllByRecursion};
ghost use Rattle.call.specs.Calls.{caller_of, kind_of, letter_of};
ghost use Rattle.call.specs.Figures.{figures as numbers_of};
ghost use Rattle.job.specs.Encoding.{lock_of, word_of, payload_of, record_bytes, contents, by_lawful_core, all_lawful, encodable};
ghost use Rattle.job.specs.Encoding.{encode as encoding, LawfulCall};
ghost use Rattle.job.specs.Reading.{reading, says};

use crate::layout::Record;
use call::{Call, Figures};

// Lock, word and payload of a call's record; what the call does not use is zero.
fn fields_of(call: Call) -> (u8, u16, u64)
    ensures { result ≡ (lock_of call, word_of call, payload_of call) }
{
    match call {
        Call::Load(_, word) | Call::Evict(_, word) => (0, word, 0),
        Call::Store(_, word, value) => (0, word, u64::from(value)),
        Call::Acquire(_, lock) | Call::Release(_, lock) => (lock, 0, 0),
        Call::Phase(plan) => (0, 0, plan),
        Call::Settle => (0, 0, 0),
    }
}

// The record of a call.
fn record_of(call: Call) -> Record
    ensures { result ≡ record_bytes call }
{
    let letter = call.kind().letter() as u8;
    let (lock, word, payload) = fields_of(call);
    let [hi, lo] = word.to_be_bytes();
    let [a, b, c, d, e, f, g, h] = payload.to_be_bytes();
    [letter, lock, hi, lo, a, b, c, d, e, f, g, h, call.caller()]
}

// The contents of a job.
fn contents_of(figures: &Figures, records: u32) -> [u8; 16]
    ensures { result ≡ contents (numbers_of figures.now) records }
{
    let [w1, w0] = figures.words().to_be_bytes();
    let [z1, z0] = figures.strip().to_be_bytes();
    let [a3, a2, a1, a0] = figures.allowance().to_be_bytes();
    let [c3, c2, c1, c0] = records.to_be_bytes();
    [
        figures.cores(),
        figures.slots(),
        w1,
        w0,
        z1,
        z0,
        0,
        0,
        a3,
        a2,
        a1,
        a0,
        c3,
        c2,
        c1,
        c0,
    ]
}

// Whether the core that makes a call is one of 0 to 7.
fn by_lawful_core(call: Call) -> bool
    ensures value { result ≡ by_lawful_core call }
    ensures lawful { result ≡ true → LawfulCall call }
{
    match call {
        Call::Phase(_) | Call::Settle => true,
        _ => call.caller() < 8,
    }
}

// The same of every call.
fn all_lawful(calls: &[Call]) -> bool
    ensures value { result ≡ all_lawful calls.now }
    ensures lawful { result ≡ true → AllByRecursion LawfulCall calls.now }
{
    calls.iter().all(|call| by_lawful_core(*call))
}

// Writes the records of calls, one after another.
fn write_records(calls: &[Call], out: &mut [u8])
    requires { 13 * length calls.now ≤ length out.old }
    ensures { out.new ≡ flat_map record_bytes calls.now ++ drop (13 * length calls.now) out.old }
{
    for (i, call) in calls.iter().enumerate() {
        let at = 13 * i;
        out[at..at + 13].copy_from_slice(&record_of(*call));
    }
}

// Writes a whole job into the first bytes of `out`: the contents, and the records past them.
fn write_job(figures: &Figures, calls: &[Call], out: &mut [u8])
    requires { (length calls.now ≤ 4608) × (16 + 13 * length calls.now ≤ length out.old) }
    ensures after { out.new ≡ encoding (numbers_of figures.now) calls.now ++ drop (16 + 13 * length calls.now) out.old }
    ensures reads { AllByRecursion LawfulCall calls.now → reading (encoding (numbers_of figures.now) calls.now) ≡ Ok (says (numbers_of figures.now) calls.now) }
{
    let (head, body) = out.split_at_mut(16);
    head.copy_from_slice(&contents_of(figures, calls.len() as u32));
    write_records(calls, body);
}

/// Writes the job of these figures and calls into the first bytes of `out`, leaves the bytes past it as they were, and gives
/// its length; what is written is read back as these figures and calls. It refuses more than 4,608 calls, a call by a core
/// above 7 and too little room, and then writes nothing.
pub fn encode(figures: &Figures, calls: &[Call], out: &mut [u8]) -> Option<usize>
    ensures value { result ≡ (if encodable calls.now (length out.old) then Some (16 + 13 * length calls.now) else None) }
    ensures after { out.new ≡ (if encodable calls.now (length out.old) then encoding (numbers_of figures.now) calls.now ++ drop (16 + 13 * length calls.now) out.old else out.old) }
    ensures reads { OnSome result (reading (encoding (numbers_of figures.now) calls.now) ≡ Ok (says (numbers_of figures.now) calls.now)) }
{
    let size = calls.len();
    if size > 4_608 || out.len() < 16 + 13 * size || !all_lawful(calls) {
        return None;
    }
    write_job(figures, calls, out);
    Some(16 + 13 * size)
}
