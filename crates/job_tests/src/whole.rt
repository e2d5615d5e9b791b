//! Jobs that are accepted, from none to the most records, and what is read back from them.
use call::{Call, FaultTold, Figures};
use job::{Job, encode};
use std::test::Fail;

// The most records that a job may have, and its length then.
const MOST: usize = 4_608;

const LONGEST: usize = 59_920;

#[test]
fn read_back(rt: HostRuntime) -> Result<(), Fail> {
    let figures = Figures::check(8, 64, 4_096, 256, 1_000_000)?;
    let calls = [
        Call::Phase(129),
        Call::Store(0, 1, 50),
        Call::Load(7, 6),
        Call::Acquire(3, 9),
        Call::Release(3, 200),
        Call::Evict(2, 65_535),
        Call::Settle,
    ];
    let mut bytes = [9u8; 120];
    assert_eq!(rt; encode(&figures, &calls, &mut bytes), Some(107));
    assert_eq!(rt; bytes[107], 9);
    let mut job = Job::open(&bytes[0..107]);
    assert_eq!(rt; job.records(), 7);
    let read = job.figures()?;
    assert_eq!(rt; read.cores(), 8);
    assert_eq!(rt; read.slots(), 64);
    assert_eq!(rt; read.words(), 4_096);
    assert_eq!(rt; read.strip(), 256);
    assert_eq!(rt; read.allowance(), 1_000_000);
    for call in calls {
        assert_eq!(rt; job.next(), Some(call));
    }
    assert_eq!(rt; job.next(), None);
    assert_eq!(rt; job.next(), None);
    for (read, call) in Job::open(&bytes[0..107]).zip(calls) {
        assert_eq!(rt; read, call);
    }
    Ok(())
}

#[test]
fn no_records(rt: HostRuntime) -> Result<(), Fail> {
    let figures = Figures::check(1, 1, 1, 1, 1)?;
    let mut bytes = [0u8; 16];
    assert_eq!(rt; encode(&figures, &[], &mut bytes), Some(16));
    let mut job = Job::open(&bytes);
    assert!(rt; job.figures().is_ok());
    assert_eq!(rt; job.records(), 0);
    assert_eq!(rt; job.next(), None);
    Ok(())
}

#[test]
fn refused_encodings(rt: HostRuntime) -> Result<(), Fail> {
    let figures = Figures::check(1, 1, 1, 1, 1)?;
    let mut bytes = [7u8; 29];
    assert_eq!(rt; encode(&figures, &[Call::Load(8, 0)], &mut bytes), None);
    assert_eq!(rt;
        encode(&figures, &[Call::Settle, Call::Settle], &mut bytes),
        None
    );
    assert_eq!(rt; bytes[0], 7);
    assert_eq!(rt; encode(&figures, &[Call::Load(7, 0)], &mut bytes), Some(29));
    assert_eq!(rt; bytes[0], 1);
    Ok(())
}

#[test]
fn most_records(rt: HostRuntime) -> Result<(), Fail> {
    let figures = Figures::check(1, 1, 1, 1, 1)?;
    let calls = [Call::Settle; MOST];
    let mut bytes = [0u8; 59_933];
    assert_eq!(rt; encode(&figures, &calls, &mut bytes), Some(LONGEST));
    assert_eq!(rt; Job::open(&bytes[0..LONGEST]).records(), 4_608);
    // one record more, with its number
    bytes[15] = 1;
    bytes[LONGEST] = b'T';
    bytes[59_932] = 8;
    let job = Job::open(&bytes);
    assert_eq!(rt; job.records(), 0);
    let Err(fault) = job.figures() else {
        return Err(Fail::new("4,609 records are accepted"));
    };
    assert_eq!(rt; FaultTold::from(fault).number, 22);
    Ok(())
}

#[test]
fn too_many(rt: HostRuntime) -> Result<(), Fail> {
    let figures = Figures::check(1, 1, 1, 1, 1)?;
    let calls = [Call::Settle; 4_609];
    let mut bytes = [0u8; 59_933];
    assert_eq!(rt; encode(&figures, &calls, &mut bytes), None);
    Ok(())
}
