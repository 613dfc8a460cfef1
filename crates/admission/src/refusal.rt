ghost use Rattle.std.specs.Prelude.{◌≡◌};
ghost use Rattle.admission.specs.Refusals.{numbered};

// Why a call is turned down: the first question that was answered "no".
#[derive(Clone, Copy, Debug, PartialEq, Eq)]
pub enum Refusal {
    // A batch is open.
    BatchOpen,
    // There are not 1 to 32 tasks.
    TaskCount,
    // The rule is not 1, 2 or 3.
    UnknownRule,
    // A period is not 1 to 1,000,000, or a deadline not 1 to its period.
    PeriodOrDeadline { place: u32 },
    // A task does not own 1 to 8 segments of the list.
    SegmentRange { place: u32 },
    // A segment is of no known kind, or its size is out of range.
    KindOrSize { place: u32 },
    // An access is to an object that does not exist.
    AccessObject { place: u32 },
    // The hyperperiod is above 1,000,000.
    LongHyperperiod,
    // The load is above the hyperperiod.
    Overload,
    // A deadline can be missed: the place of the task, or the least time that fails. One number, as
    // in the fixed format of the answers: the rule that was asked for says which.
    Unschedulable { at: u32 },
    // A batch is open already.
    AlreadyOpen,
    // No batch is open.
    NoBatch,
    // There is no such place in the table.
    NoPlace,
    // The task's period has not gone by since its last release.
    TooSoon,
    // The task's last job has not finished.
    Unfinished,
    // The clock has come to its end.
    ClockEnd,
    // The token is void.
    VoidToken,
    // The time is not 1 to 1,000,000.
    TimeRange,
    // There is no such object.
    NoObject,
}

impl Refusal {
    // The number of the question, in the fixed format of the answers.
    pub fn number(&self) -> u32
        ensures { result ≡ (numbered self.now).0 }
    {
        match self {
            Refusal::BatchOpen => 11,
            Refusal::TaskCount => 12,
            Refusal::UnknownRule => 13,
            Refusal::PeriodOrDeadline { place: _ } => 14,
            Refusal::SegmentRange { place: _ } => 15,
            Refusal::KindOrSize { place: _ } => 16,
            Refusal::AccessObject { place: _ } => 17,
            Refusal::LongHyperperiod => 18,
            Refusal::Overload => 19,
            Refusal::Unschedulable { at: _ } => 20,
            Refusal::AlreadyOpen => 21,
            Refusal::NoBatch => 31,
            Refusal::NoPlace => 32,
            Refusal::TooSoon => 33,
            Refusal::Unfinished => 34,
            Refusal::ClockEnd => 35,
            Refusal::VoidToken => 36,
            Refusal::TimeRange => 37,
            Refusal::NoObject => 38,
        }
    }

    // What the question was about, or 0, in the fixed format of the answers.
    pub fn detail(&self) -> u32
        ensures { result ≡ (numbered self.now).1 }
    {
        match self {
            Refusal::PeriodOrDeadline { place }
            | Refusal::SegmentRange { place }
            | Refusal::KindOrSize { place }
            | Refusal::AccessObject { place } => *place,
            Refusal::Unschedulable { at } => *at,
            _ => 0,
        }
    }
}
