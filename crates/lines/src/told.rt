//! The lines of a record and of a fault, by the numbers that each tells.
ghost use Rattle.std.specs.Prelude.{◌≡◌, ◌+◌, ◌*◌, ◌≤◌, length};
ghost use Rattle.std.specs.List.{flat_map};
ghost use Rattle.call.specs.Calls.{letter_of};
ghost use Rattle.lines.specs.Lines.{answer_line, fault_line, numbers_line, told_line};
ghost use Rattle.lines.specs.Writing.{Added};

use crate::writer::Writer;
use call::{AnswerRecord, FaultTold, JobFault, Kind, Told};

// The letter of a kind as a byte.
fn letter_byte(kind: Kind) -> u8
    ensures { result ≡ letter_of kind }
{
    kind.letter() as u8
}

impl Writer<'_> {
    // Adds the line of a record, of at most 31 bytes.
    pub(crate) fn answer(&mut self, answered: AnswerRecord)
        requires { self.old.end + 48 ≤ length self.old.out.now }
        ensures added { Added self.old (answer_line answered) self.new }
        ensures most { length (answer_line answered) ≤ 31 }
    {
        let letter = letter_byte(answered.kind);
        self.numbers(answered.caller, letter, Told::from(answered.answer));
    }

    // Adds the lines of some records, one after another.
    pub(crate) fn answers(&mut self, records: &[AnswerRecord])
        requires { self.old.end + 48 * length records.now ≤ length self.old.out.now }
        ensures { Added self.old (flat_map answer_line records.now) self.new }
    {
        for answered in records {
            self.answer(*answered);
        }
    }

    // Adds the line of what an answer tells.
    fn numbers(&mut self, caller: u8, letter: u8, told: Told)
        requires { self.old.end + 48 ≤ length self.old.out.now }
        ensures { Added self.old (numbers_line caller letter told) self.new }
    {
        self.field(caller as u32, b' ');
        self.text(&[letter, b' ']);
        self.field(told.refusal as u32, b' ');
        self.field(told.small as u32, b' ');
        self.field(told.value, b' ');
        self.field(told.mark, b'\n');
    }

    // Adds the line of a fault.
    pub(crate) fn fault(&mut self, fault: JobFault)
        requires { self.old.end + 48 ≤ length self.old.out.now }
        ensures { Added self.old (fault_line fault) self.new }
    {
        self.refused(FaultTold::from(fault));
    }

    // Adds the line of what a fault tells.
    fn refused(&mut self, told: FaultTold)
        requires { self.old.end + 48 ≤ length self.old.out.now }
        ensures { Added self.old (told_line told) self.new }
    {
        self.text(b"refused ");
        self.field(told.number as u32, b' ');
        self.field(told.place as u32, b' ');
        self.field(told.inner as u32, b'\n');
    }
}
