//! What can be wrong with figures and with a job.
ghost use Rattle.std.specs.Prelude.{◌≡◌};
ghost use Rattle.call.specs.Told.{figure_number, figure_place, fault, fault_told};
ghost use Rattle.call.specs.declared.fault.JobFault.TheVariants.{Figures};

/// The first of the five figures that breaks its row, by the row's number.
#[derive(Clone, Copy, PartialEq, Eq, Debug)]
pub enum FigureFault {
    /// No core, or more than 8.
    Cores = 14,
    /// No slot, or more than 64.
    Slots = 15,
    /// No word, or more than 4,096.
    Words = 16,
    /// A strip of no word or more than 4,096, or more words than sixteen strips hold.
    Strip = 17,
    /// No store allowed, or more than 1,000,000.
    Allowance = 18,
}

/// What is wrong with a job, the first fault in the order of the checks.
#[derive(Clone, Copy, PartialEq, Eq, Debug)]
pub enum JobFault {
    /// Under 16 bytes: its length.
    Short(u8),
    /// Its figures are refused.
    Figures(FigureFault),
    /// Bytes 6 and 7 are not both zero.
    Reserved,
    /// More than 4,608 records, or a length that is not 16 bytes and 13 for each record.
    Length,
    /// The record at this place is against its layout.
    Record(u16),
    /// The answer table is shorter than the number of records.
    Table,
}

/// What a fault of a job tells: its number, its byte place in the job and the number of the figures' refusal inside,
/// 0 if there is none.
#[derive(Clone, Copy, PartialEq, Eq, Debug)]
pub struct FaultTold {
    pub number: u8,
    pub place: u16,
    pub inner: u8,
}

// The three numbers that a fault tells.
fn at(number: u8, place: u16, inner: u8) -> FaultTold
    ensures { result ≡ fault number place inner }
{
    FaultTold {
        number,
        place,
        inner,
    }
}

impl FigureFault {
    /// The number of the broken row.
    pub fn number(self) -> u8
        ensures { result ≡ figure_number self }
    {
        self as u8
    }

    /// The byte of a job at which the figure stands.
    pub fn place(self) -> u16
        ensures { result ≡ figure_place self }
    {
        match self {
            FigureFault::Cores => 0,
            FigureFault::Slots => 1,
            FigureFault::Words => 2,
            FigureFault::Strip => 4,
            FigureFault::Allowance => 8,
        }
    }
}

/// The fault's number, its place and the number inside.
impl From<JobFault> for FaultTold {
    ghost from_gives = { λ e r. r ≡ fault_told e };

    fn from(fault: JobFault) -> FaultTold
        ensures { result ≡ fault_told fault }
    {
        match fault {
            JobFault::Short(length) => at(19, length as u16, 0),
            JobFault::Figures(row) => at(20, row.place(), row.number()),
            JobFault::Reserved => at(21, 6, 0),
            JobFault::Length => at(22, 12, 0),
            JobFault::Record(place) => at(23, place, 0),
            JobFault::Table => at(24, 0, 0),
        }
    }
}

/// A broken row of the figures comes up through the job reader inside the job's fault.
impl From<FigureFault> for JobFault {
    ghost from_gives = { λ e r. r ≡ Figures e };

    fn from(broken: FigureFault) -> JobFault {
        JobFault::Figures(broken)
    }
}
