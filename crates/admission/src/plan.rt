ghost use Rattle.std.specs.Prelude.{◌≡◌, ◌≤◌, []};

use crate::length::attempt_ticks;
use crate::refusal::Refusal;
use crate::task::{MAX_SEGMENTS, Segment};

// How the jobs of a table are ordered.
#[derive(Clone, Copy, Debug, PartialEq, Eq)]
pub enum Rule {
    RateMonotonic,
    DeadlineMonotonic,
    EarliestDeadlineFirst,
}

impl Rule {
    ghost use Rattle.admission.specs.Tables.{goes_by_rank};

    // Whether the jobs are ordered by rank. Callers switch on it: a rule is data of the table, with
    // two orders.
    pub fn is_by_rank(self) -> bool
        ensures { result ≡ goes_by_rank self }
    {
        match self {
            Rule::RateMonotonic | Rule::DeadlineMonotonic => true,
            Rule::EarliestDeadlineFirst => false,
        }
    }
}

// The rule that a number stands for.
impl TryFrom<u32> for Rule {
    type Error = Refusal;

    ghost use Rattle.admission.specs.Verdicts.{HasNumber};

    ghost try_from_gives = { HasNumber };

    fn try_from(number: u32) -> Result<Self, Refusal> {
        match number {
            1 => Ok(Rule::RateMonotonic),
            2 => Ok(Rule::DeadlineMonotonic),
            3 => Ok(Rule::EarliestDeadlineFirst),
            _ => Err(Refusal::UnknownRule),
        }
    }
}

// The word that an access commits: the amount, or the reading plus the amount.
#[derive(Clone, Copy, Debug, PartialEq, Eq)]
pub enum Word {
    Put,
    Add,
}

// A segment as the controller runs it: so many ticks of computing, or an access whose every
// attempt takes so many ticks.
#[derive(Clone, Copy, Debug, PartialEq, Eq)]
pub enum Step {
    Compute {
        ticks: u32,
    },
    Access {
        word: Word,
        ticks: u32,
        object: u32,
        amount: u32,
    },
}

impl Step {
    ghost use Rattle.admission.specs.Lengths.{ticks_in, attempt_in};

    // Its ticks, with one attempt to an access.
    pub(crate) fn ticks(self) -> u32
        ensures { result ≡ ticks_in self }
    {
        match self {
            Step::Compute { ticks } | Step::Access { ticks, .. } => ticks,
        }
    }

    // The ticks of an attempt; 0 for computing, and no Option: the maximum is taken of it.
    pub(crate) fn attempt(self) -> u32
        ensures { result ≡ attempt_in self }
    {
        match self {
            Step::Compute { .. } => 0,
            Step::Access { ticks, .. } => ticks,
        }
    }
}

// Written by hand, since a derive takes a variant without fields.
impl Default for Step {
    ghost use Rattle.admission.specs.declared.plan.Step.TheVariants.{Compute};

    ghost is_default = { λ step. step ≡ Compute 0 };

    fn default() -> Step {
        Step::Compute { ticks: 0 }
    }
}

// The step that a segment describes. Only here does the number of a kind become a step. A kind
// above 2, which no table that is taken has, adds: no error is made that nothing could answer.
impl From<Segment> for Step {
    ghost use Rattle.admission.specs.Tables.{step_of};

    ghost from_gives = { λ segment step. step ≡ step_of segment };

    fn from(segment: Segment) -> Step {
        let word = match segment.kind {
            0 => return Step::Compute {
                ticks: segment.size,
            },
            1 => Word::Put,
            _ => Word::Add,
        };
        Step::Access {
            word,
            ticks: attempt_ticks(segment.size),
            object: segment.object,
            amount: segment.amount,
        }
    }
}

// What the tests count of a task.
#[derive(Clone, Copy, Debug, Default, PartialEq, Eq)]
pub struct AdoptedTask {
    pub period: u32,
    pub deadline: u32,
    // The ticks of a job whose every access succeeds at the first attempt.
    pub cost: u32,
    // 0 is the most urgent; 0 for all under earliest deadline first, as the caller's records have it.
    pub rank: u32,
}

// The steps of a task's jobs, in the front of `steps`. An array, so that a plan is `Copy`, which a
// list in fixed memory is not.
#[derive(Clone, Copy, Debug)]
pub struct Plan {
    pub count: usize,
    pub steps: [Step; MAX_SEGMENTS],
    ghost few: { count ≤ 8 },
}

// By hand: the ghost field keeps it from being derived.
impl Default for Plan {
    ghost use Rattle.admission.specs.Tables.{steps_in};

    ghost is_default = { λ plan. steps_in plan ≡ [] };

    fn default() -> Plan {
        Plan {
            count: 0,
            steps: [Step::default(); MAX_SEGMENTS],
        }
    }
}
