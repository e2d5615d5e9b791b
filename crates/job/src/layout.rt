//! One record of a job, from its bytes to its call.
ghost use Rattle.std.specs.Prelude.{◌≡◌};
ghost use Rattle.job.specs.Reading.{kind_by, spelled_by, spelled};

use call::Call;

// The bytes of a record.
pub(crate) type Record = [u8; 13];

// The call of these fields: the letter decides it, and the fields that it does not use are zero.
fn call_of(letter: u8, lock: u8, word: u16, payload: u64, caller: u8) -> Option<Call>
    ensures { result ≡ spelled_by (kind_by letter) lock word payload caller }
{
    match (letter as char, lock, word, payload, caller) {
        ('L', 0, _, 0, 0..=7) => Some(Call::Load(caller, word)),
        ('S', 0, _, 0..=0xffff_ffff, 0..=7) => Some(Call::Store(caller, word, payload as u32)),
        ('E', 0, _, 0, 0..=7) => Some(Call::Evict(caller, word)),
        ('A', _, 0, 0, 0..=7) => Some(Call::Acquire(caller, lock)),
        ('R', _, 0, 0, 0..=7) => Some(Call::Release(caller, lock)),
        ('P', 0, 0, _, 8) => Some(Call::Phase(payload)),
        ('T', 0, 0, 0, 8) => Some(Call::Settle),
        _ => None,
    }
}

// The call that a record spells, if it has the layout.
pub(crate) fn spelled_call(bytes: &Record) -> Option<Call>
    ensures { result ≡ spelled bytes.now }
{
    let [letter, lock, hi, lo, rest @ ..] = bytes.as_slice() else {
        return None;
    };
    let (payload, last) = rest.split_first_chunk::<8>()?;
    let caller = last.first()?;
    call_of(
        *letter,
        *lock,
        u16::from_be_bytes([*hi, *lo]),
        u64::from_be_bytes(*payload),
        *caller,
    )
}
