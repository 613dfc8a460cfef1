ghost use Rattle.std.specs.Prelude.{◌≡◌};
ghost use Rattle.controller.specs.Events.{event_number, event_object, event_word};
ghost use Rattle.controller.specs.Machines.{is_retry_event, spaced};
ghost use Rattle.controller.specs.Turns.{pending_in, left_in, seen_in, start_of};

use admission::plan::Step;

// Where a job stands in its present step. No Option of what is pending: there are two kinds of it.
#[derive(Clone, Copy, Debug, Default, PartialEq, Eq)]
pub enum JobState {
    // It has finished, or there is none.
    #[default]
    Resting,
    // So many ticks are left of computing.
    Computing { left: u32 },
    // So many ticks are left of an attempt, which goes by the reading that its first tick saw.
    Attempting { left: u32, seen: u32 },
}

impl JobState {
    // A job at the start of a step, or at rest after the last. No From: an Option is not a state by
    // itself, and the name says which state of the step is meant.
    pub(crate) fn start_of(step: Option<Step>) -> JobState
        ensures { result ≡ start_of step }
    {
        match step {
            None => JobState::Resting,
            Some(Step::Compute { ticks }) => JobState::Computing { left: ticks },
            Some(Step::Access { ticks, .. }) => JobState::Attempting {
                left: ticks,
                // 0, as its definition has it: the first tick looks before this is read.
                seen: 0,
            },
        }
    }

    pub(crate) fn is_pending(self) -> bool
        ensures { result ≡ pending_in self }
    {
        match self {
            JobState::Resting => false,
            JobState::Computing { .. } => true,
            JobState::Attempting { .. } => true,
        }
    }

    // The ticks left of the present step. 0 at rest and no Option, as its definition has it: what is
    // asked is whether there are more than one.
    pub(crate) fn ticks_left(self) -> u32
        ensures { result ≡ left_in self }
    {
        match self {
            JobState::Resting => 0,
            JobState::Computing { left } => left,
            JobState::Attempting { left, .. } => left,
        }
    }

    // The reading that an attempt goes by. 0 for the others, whose steps read nothing, and no Option,
    // as its definition has it.
    pub(crate) fn reading_seen(self) -> u32
        ensures { result ≡ seen_in self }
    {
        match self {
            JobState::Resting => 0,
            JobState::Computing { .. } => 0,
            JobState::Attempting { seen, .. } => seen,
        }
    }
}

// The latest job of a task; by default there was none yet.
#[derive(Clone, Copy, Debug, Default, PartialEq, Eq)]
pub struct Job {
    pub state: JobState,
    // The index of its present step.
    pub step: usize,
    // When it was released in this batch.
    pub released: Option<u32>,
}

impl Job {
    // Whether a release may come: the first of the batch, or at least a period after the last.
    pub(crate) fn is_spaced(&self, period: u32, clock: u32) -> bool
        ensures { result ≡ spaced self.now.released period clock }
    {
        self.released
            .is_none_or(|last| last as u64 + period as u64 <= clock as u64)
    }
}

// What a tick did.
#[derive(Clone, Copy, Debug, PartialEq, Eq)]
pub enum Event {
    Computed,
    // An attempt is under way.
    Attempted,
    // An access finished: the word was committed.
    Committed { object: u32, word: u32 },
    // The commit was refused: the attempt is made again.
    Retried { object: u32 },
    // No job was pending.
    Idle,
}

impl Event {
    pub(crate) fn is_retry(&self) -> bool
        ensures { result ≡ is_retry_event self.now }
    {
        matches!(self, Event::Retried { .. })
    }

    // The fixed format of the answers has three plain numbers for each event: its own number, the
    // object of an access and the word that was committed, 0 where there is none.
    pub fn number(&self) -> u32
        ensures { result ≡ event_number self.now }
    {
        match self {
            Event::Computed => 0,
            Event::Attempted => 1,
            Event::Committed { .. } => 2,
            Event::Retried { .. } => 3,
            Event::Idle => 4,
        }
    }

    pub fn object(&self) -> u32
        ensures { result ≡ event_object self.now }
    {
        match self {
            Event::Committed { object, .. } => *object,
            Event::Retried { object } => *object,
            _ => 0,
        }
    }

    pub fn word(&self) -> u32
        ensures { result ≡ event_word self.now }
    {
        match self {
            Event::Committed { word, .. } => *word,
            _ => 0,
        }
    }
}

// What tick answers: who worked, what it did, and whether the job finished. The fixed format of the
// answers has all three for each tick, place 0 and no if nobody worked.
#[derive(Clone, Copy, Debug, PartialEq, Eq)]
pub struct Ticked {
    pub place: u32,
    pub event: Event,
    pub finished: bool,
}

// What close answers.
#[derive(Clone, Copy, Debug, PartialEq, Eq)]
pub struct Sums {
    pub ticks: u32,
    pub releases: u64,
    pub finished: u32,
    pub pending: u32,
    pub retries: u32,
    pub preemptions: u32,
}
