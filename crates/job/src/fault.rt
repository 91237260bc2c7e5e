// Why a job is stopped: each layer carries the fault of the layer below whole.
ghost use Rattle.std.specs.Prelude.{◌≡◌};
ghost use Rattle.job.specs.Faults.{layer as layer_of, number as number_of, record_number};

use penalty::SettingRefusal;

/// Why bytes do not begin with a record.
#[derive(Clone, Copy, PartialEq, Eq, Debug)]
pub enum RecordFault {
    /// The kind byte is unknown.
    UnknownKind = 11,
    /// The body is cut short.
    CutShort = 12,
}

/// Why a job is stopped.
#[derive(Clone, Copy, PartialEq, Eq, Debug)]
pub enum JobFault {
    /// The job file is above 4,096 bytes.
    TooLong,
    /// A record is unknown or cut short.
    Record(RecordFault),
    /// A setting of a layer is refused.
    Setting(SettingRefusal),
    /// A call on the roster is refused.
    Roster(roster::Refusal),
}

/// The fault that stops a job, and where.
#[derive(Clone, Copy, PartialEq, Eq, Debug)]
pub struct FaultAt {
    /// Why.
    pub fault: JobFault,
    /// The offset of the kind byte of its record; 0 for the file as a whole.
    pub offset: u16,
}

impl RecordFault {
    /// The number of the fault.
    pub fn number(self) -> u8
        ensures { result ≡ record_number self }
    {
        self as u8
    }
}

impl JobFault {
    /// The number of the fault.
    pub fn number(self) -> u8
        ensures { result ≡ number_of self }
    {
        match self {
            JobFault::TooLong => 13,
            JobFault::Record(fault) => fault.number(),
            JobFault::Setting(refusal) => refusal.number(),
            JobFault::Roster(refusal) => refusal.number(),
        }
    }

    /// The layer of the fault: 1 the file, 2 a record, 3 a rule or the roster.
    pub fn layer(self) -> u8
        ensures { result ≡ layer_of self }
    {
        match self {
            JobFault::TooLong => 1,
            JobFault::Record(_) => 2,
            JobFault::Setting(_) | JobFault::Roster(_) => 3,
        }
    }
}

impl From<RecordFault> for JobFault {
    ghost use Rattle.job.specs.declared.fault.JobFault.TheVariants.{Record};

    ghost from_gives = { λ fault own. own ≡ Record fault };

    fn from(fault: RecordFault) -> JobFault {
        JobFault::Record(fault)
    }
}

impl From<SettingRefusal> for JobFault {
    ghost use Rattle.job.specs.declared.fault.JobFault.TheVariants.{Setting};

    ghost from_gives = { λ refusal own. own ≡ Setting refusal };

    fn from(refusal: SettingRefusal) -> JobFault {
        JobFault::Setting(refusal)
    }
}

impl From<roster::Refusal> for JobFault {
    ghost use Rattle.job.specs.declared.fault.JobFault.TheVariants.{Roster};

    ghost from_gives = { λ refusal own. own ≡ Roster refusal };

    fn from(refusal: roster::Refusal) -> JobFault {
        JobFault::Roster(refusal)
    }
}
