//! One job with a call of each letter, damaged at one byte after another.
use call::{Call, FaultTold, Figures, JobFault};
use job::{Job, encode};
use std::process::Abort;
use std::test::Fail;

// A call of each letter, in the order of the records.
const CALLS: [Call; 7] = [
    Call::Load(1, 258),
    Call::Store(2, 3, 4_000_000_000),
    Call::Evict(3, 65_535),
    Call::Acquire(4, 255),
    Call::Release(7, 1),
    Call::Phase(18_446_744_073_709_551_615),
    Call::Settle,
];

// The job's length: the contents and seven records.
const SIZE: usize = 107;

// What a job that is accepted tells.
const ACCEPTED: Option<FaultTold> = None;

fn told(bytes: &[u8]) -> Option<FaultTold> {
    Some(Job::open(bytes).figures().err()?.into())
}

fn fault(number: u8, place: u16, inner: u8) -> Option<FaultTold> {
    Some(FaultTold {
        number,
        place,
        inner,
    })
}

// The job: figures 2, 4, 8, 4 and 10, and the calls.
fn sound(rt: &impl Abort) -> Result<[u8; SIZE], Fail> {
    let mut bytes = [0u8; SIZE];
    let figures = Figures::check(2, 4, 8, 4, 10)?;
    assert_eq!(rt; encode(&figures, &CALLS, &mut bytes), Some(SIZE));
    Ok(bytes)
}

// What the job tells with another byte at a place.
fn told_with(rt: &impl Abort, bytes: &[u8; SIZE], place: usize, byte: u8) -> Option<FaultTold> {
    let mut damaged = *bytes;
    assert!(rt; place < damaged.len());
    damaged[place] = byte;
    told(&damaged)
}

#[test]
fn short_and_long(rt: HostRuntime) -> Result<(), Fail> {
    let bytes = sound(&rt)?;
    assert_eq!(rt; told(&bytes), ACCEPTED);
    for size in 0..SIZE {
        let expected = if size < 16 {
            fault(19, size as u16, 0)
        } else {
            fault(22, 12, 0)
        };
        assert_eq!(rt; told(&bytes[0..size]), expected);
    }
    Ok(())
}

#[test]
fn contents(rt: HostRuntime) -> Result<(), Fail> {
    let bytes = sound(&rt)?;
    // byte place, byte, what the job then tells
    let table = [
        (0, 0, fault(20, 0, 14)),
        (0, 8, ACCEPTED),
        (0, 9, fault(20, 0, 14)),
        (0, 255, fault(20, 0, 14)),
        (1, 0, fault(20, 1, 15)),
        (1, 64, ACCEPTED),
        (1, 65, fault(20, 1, 15)),
        (2, 16, fault(20, 2, 16)),
        (3, 0, fault(20, 2, 16)),
        (3, 64, ACCEPTED),
        (3, 65, fault(20, 4, 17)),
        (4, 15, ACCEPTED),
        (4, 16, fault(20, 4, 17)),
        (5, 0, fault(20, 4, 17)),
        (6, 1, fault(21, 6, 0)),
        (7, 1, fault(21, 6, 0)),
        (8, 1, fault(20, 8, 18)),
        (9, 15, ACCEPTED),
        (9, 16, fault(20, 8, 18)),
        (11, 0, fault(20, 8, 18)),
        (12, 1, fault(22, 12, 0)),
        (13, 1, fault(22, 12, 0)),
        (14, 1, fault(22, 12, 0)),
        (15, 6, fault(22, 12, 0)),
        (15, 8, fault(22, 12, 0)),
    ];
    for (place, byte, expected) in table {
        assert_eq!(rt; told_with(&rt, &bytes, place, byte), expected);
    }
    Ok(())
}

#[test]
fn unused_bytes(rt: HostRuntime) -> Result<(), Fail> {
    let bytes = sound(&rt)?;
    // by record: the bytes, of those past the letter, that have to be zero, in two runs
    let table = [
        (1..=1, 4..=11),
        (1..=1, 4..=7),
        (1..=1, 4..=11),
        (2..=11, 2..=11),
        (2..=11, 2..=11),
        (1..=3, 1..=3),
        (1..=11, 1..=11),
    ];
    for (index, (one, other)) in table.iter().enumerate() {
        let start = 16 + 13 * index;
        for offset in 1..12usize {
            let unused = one.contains(&offset) || other.contains(&offset);
            let expected = if unused {
                fault(23, start as u16, 0)
            } else {
                ACCEPTED
            };
            assert_eq!(rt; told_with(&rt, &bytes, start + offset, 1), expected);
        }
    }
    Ok(())
}

#[test]
fn callers_and_letters(rt: HostRuntime) -> Result<(), Fail> {
    let bytes = sound(&rt)?;
    for index in 0..CALLS.len() {
        let start = 16 + 13 * index;
        let refused = fault(23, start as u16, 0);
        let core = if index < 5 { ACCEPTED } else { refused };
        let conductor = if index < 5 { refused } else { ACCEPTED };
        assert_eq!(rt; told_with(&rt, &bytes, start + 12, 7), core);
        assert_eq!(rt; told_with(&rt, &bytes, start + 12, 8), conductor);
        assert_eq!(rt; told_with(&rt, &bytes, start + 12, 9), refused);
        for letter in [0, b'l', b'K', b'M', b'O', b'Q', b'U', 255] {
            assert_eq!(rt; told_with(&rt, &bytes, start, letter), refused);
        }
    }
    Ok(())
}

#[test]
fn first_fault(rt: HostRuntime) -> Result<(), Fail> {
    let mut bytes = sound(&rt)?;
    bytes[94] = 0;
    assert_eq!(rt; told(&bytes), fault(23, 94, 0));
    bytes[55] = 0;
    assert_eq!(rt; told(&bytes), fault(23, 55, 0));
    bytes[15] = 9;
    assert_eq!(rt; told(&bytes), fault(22, 12, 0));
    bytes[7] = 9;
    assert_eq!(rt; told(&bytes), fault(21, 6, 0));
    bytes[11] = 0;
    assert_eq!(rt; told(&bytes), fault(20, 8, 18));
    bytes[0] = 0;
    assert_eq!(rt; told(&bytes), fault(20, 0, 14));
    assert_eq!(rt; told(&bytes[0..15]), fault(19, 15, 0));
    Ok(())
}
