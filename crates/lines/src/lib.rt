//! The lines that playback prints: an answer record or a job's fault as text in a field of 48 bytes of the caller's. Nothing
//! here allocates, and a field keeps its bytes past the line.
#![tactic(auto)]

ghost use Rattle.std.specs.Prelude.{◌≡◌, ◌*◌, ◌/◌, ◌≤◌, ◌++◌, length, drop, if◌then◌else◌, Some, None};
ghost use Rattle.std.specs.List.{flat_map};
ghost use Rattle.lines.specs.Laws.{LinesApart, FaultsApart, NeverBoth};
ghost use Rattle.lines.specs.Lines.{answer_line, fault_line, has_room};
ghost use Rattle.lines.specs.Texts.{Wrote};

use call::{AnswerRecord, JobFault};
use writer::Writer;

mod told;
mod writer;

/// Writes the line of an answer record into the first bytes of a field and gives its length: caller, letter, refusal (0 if
/// accepted), small answer, value and mark, with single spaces and a newline. Different records that calls can give never
/// have the same line.
pub fn write_line(field: &mut [u8; 48], answered: AnswerRecord) -> usize
    ensures value { result ≡ length (answer_line answered) }
    ensures after { field.new ≡ answer_line answered ++ drop (length (answer_line answered)) field.old }
    ensures most { result ≤ 31 }
    ensures apart { LinesApart }
{
    let mut writer = Writer { out: field, end: 0 };
    writer.answer(answered);
    writer.end
}

// Writes the lines of some records one after another, and gives their length. There is room for a field for each of them.
fn put_lines(out: &mut [u8], records: &[AnswerRecord]) -> usize
    requires { 48 * length records.now ≤ length out.old }
    ensures { Wrote out.old 0 (flat_map answer_line records.now) out.new result }
{
    let mut writer = Writer { out, end: 0 };
    writer.answers(records);
    writer.end
}

/// Writes the lines of some records one after another into the first bytes of a buffer, and gives their length; later bytes keep what
/// they held. Where the buffer has not 48 bytes for each record, none is written.
pub fn write_lines(out: &mut [u8], records: &[AnswerRecord]) -> Option<usize>
    ensures value { result ≡ (if has_room (length out.old) (length records.now) then Some (length (flat_map answer_line records.now)) else None) }
    ensures after { out.new ≡ (if has_room (length out.old) (length records.now) then flat_map answer_line records.now ++ drop (length (flat_map answer_line records.now)) out.old else out.old) }
{
    if out.len() / 48 < records.len() {
        return None;
    }
    Some(put_lines(out, records))
}

/// Writes the line of a job's fault into the first bytes of a field and gives its length: the word "refused", the fault's
/// number, its byte place and the number inside, spaced alike. Different faults never have the same line, and no fault has
/// the line of a record that a call can give.
pub fn write_fault(field: &mut [u8; 48], fault: JobFault) -> usize
    ensures value { result ≡ length (fault_line fault) }
    ensures after { field.new ≡ fault_line fault ++ drop (length (fault_line fault)) field.old }
    ensures most { result ≤ 19 }
    ensures apart { FaultsApart }
    ensures never_both { NeverBoth }
{
    let mut writer = Writer { out: field, end: 0 };
    writer.fault(fault);
    writer.end
}

/// Writes the line of a job's fault into the first bytes of a buffer, and gives its length; later bytes keep what they held. Where the
/// buffer has not 48 bytes, nothing is written.
pub fn write_fault_line(out: &mut [u8], fault: JobFault) -> Option<usize>
    ensures value { result ≡ (if has_room (length out.old) 1 then Some (length (fault_line fault)) else None) }
    ensures after { out.new ≡ (if has_room (length out.old) 1 then fault_line fault ++ drop (length (fault_line fault)) out.old else out.old) }
{
    let field = out.first_chunk_mut::<48>()?;
    Some(write_fault(field, fault))
}

// Lines as they stand in a field that was full of dots.
#[cfg(test)]
mod tests {
    use super::*;
    use call::{Access, Answer, FigureFault, Kind, Refusal};
    use std::test::Fail;
    use word::{Mark, Word};

    // The field begins with the line, whose length is the one given, and is full of dots past it.
    fn holds(field: &[u8; 48], size: usize, line: &[u8]) -> bool {
        size == line.len()
            && field.starts_with(line)
            && field.iter().skip(size).all(|byte| *byte == b'.')
    }

    fn prints(caller: u8, kind: Kind, answer: Result<Answer, Refusal>, line: &[u8]) -> bool {
        let mut field = [b'.'; 48];
        let size = write_line(
            &mut field,
            AnswerRecord {
                caller,
                kind,
                answer,
            },
        );
        holds(&field, size, line)
    }

    fn prints_fault(fault: JobFault, line: &[u8]) -> bool {
        let mut field = [b'.'; 48];
        let size = write_fault(&mut field, fault);
        holds(&field, size, line)
    }

    #[test]
    fn sample_lines(rt: HostRuntime) -> Result<(), Fail> {
        let Some(first) = Mark::of_store(0, 1) else {
            return Err(Fail::new("no mark"));
        };
        let Some(second) = Mark::of_store(0, 2) else {
            return Err(Fail::new("no mark"));
        };
        let held = Word {
            value: 7,
            mark: second,
        };
        let race = Refusal::Race(0, Access::Store);
        assert!(rt; prints(8, Kind::Phase, Ok(Answer::Done(0)), b"8 P 0 0 0 0\n"));
        assert!(rt;
            prints(
                0,
                Kind::Store,
                Ok(Answer::Stored(1, first)),
                b"0 S 0 1 0 1\n"
            )
        );
        assert!(rt; prints(1, Kind::Load, Err(race), b"1 L 6 0 1 0\n"));
        assert!(rt; prints(1, Kind::Load, Ok(Answer::Loaded(held, 2)), b"1 L 0 2 7 2\n"));
        Ok(())
    }

    // Every number of one record as long as its type lets it be, and the longest number of a call.
    #[test]
    fn longest_lines(rt: HostRuntime) -> Result<(), Fail> {
        let Some(mark) = Mark::of_store(7, 1_000_000) else {
            return Err(Fail::new("no mark"));
        };
        let held = Word {
            value: 4_294_967_295,
            mark,
        };
        assert!(rt;
            prints(
                255,
                Kind::Load,
                Ok(Answer::Loaded(held, 255)),
                b"255 L 0 255 4294967295 8340032\n",
            )
        );
        assert!(rt;
            prints(
                8,
                Kind::Settle,
                Ok(Answer::Done(65_535)),
                b"8 T 0 65535 0 0\n"
            )
        );
        assert!(rt; prints(10, Kind::Evict, Ok(Answer::Done(100)), b"10 E 0 100 0 0\n"));
        Ok(())
    }

    #[test]
    fn fault_lines(rt: HostRuntime) {
        assert!(rt; prints_fault(JobFault::Figures(FigureFault::Strip), b"refused 20 4 17\n"));
        assert!(rt; prints_fault(JobFault::Record(29), b"refused 23 29 0\n"));
        assert!(rt; prints_fault(JobFault::Record(65_535), b"refused 23 65535 0\n"));
    }
}
