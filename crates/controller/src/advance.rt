ghost use Rattle.std.specs.Prelude.{◌≡◌, ℕ, ◌+◌, ◌<◌};
ghost use Rattle.controller.specs.Turns.{word_of, goes_by, brings, outcome_of, model_after, turn};

use crate::job::{Event, Job, JobState};
use admission::plan::{Step, Word};
use shelf::interface::Shelf;

// What comes of an attempt on a tick. No Option<bool>: each outcome has its name in the match below.
#[derive(Clone, Copy, Debug, PartialEq, Eq)]
pub enum Outcome {
    UnderWay,
    Accepted,
    Refused,
}

// The reading that an attempt goes by: its first tick looks, before anything else. 0 for computing,
// which reads nothing; an Option would be taken apart in the one arm that has it. State and step are
// handed to it and to `commit_if_due` one by one: no type of both, since `advance` matches on each.
fn reading_for<S: Shelf>(shelf: &S, state: JobState, step: Step) -> u32
    ensures { result ≡ goes_by (S.Shelf.model shelf.now) state step }
{
    match step {
        Step::Compute { .. } => 0,
        Step::Access { ticks, object, .. } => {
            if state.ticks_left() == ticks {
                shelf.look(object)
            } else {
                state.reading_seen()
            }
        }
    }
}

fn word_of(word: Word, reading: u32, amount: u32) -> u32
    ensures { result ≡ word_of word reading amount }
{
    match word {
        Word::Put => amount,
        Word::Add => reading.saturating_add(amount),
    }
}

// The word that a step brings to its commit; computing brings none, 0 as with the reading.
fn word_for(step: Step, reading: u32) -> u32
    ensures { result ≡ brings step reading }
{
    match step {
        Step::Compute { .. } => 0,
        Step::Access { word, amount, .. } => word_of(word, reading, amount),
    }
}

// Commits on the last tick of an attempt.
fn commit_if_due<S: Shelf>(
    shelf: &mut S,
    state: JobState,
    step: Step,
    reading: u32,
    word: u32,
) -> Outcome
    ensures outcome { result ≡ outcome_of (S.Shelf.model shelf.old) state step reading }
    ensures shelf { S.Shelf.model shelf.new ≡ model_after result (S.Shelf.model shelf.old) step reading word }
{
    match (state, step) {
        (JobState::Resting, _) => Outcome::UnderWay,
        (_, Step::Compute { .. }) => Outcome::UnderWay,
        (_, Step::Access { object, .. }) => {
            if state.ticks_left() > 1 {
                return Outcome::UnderWay;
            }
            if shelf.commit(object, reading, word) {
                Outcome::Accepted
            } else {
                Outcome::Refused
            }
        }
    }
}

// One tick of a job in its present step, which the step `next` comes after.
pub(crate) fn advance<S: Shelf>(
    shelf: &mut S,
    job: &mut Job,
    step: Step,
    next: Option<Step>,
) -> Event
    requires { job.old.step < 8 }
    ensures job { job.new ≡ (turn (S.Shelf.model shelf.old) job.old step next).job }
    ensures event { result ≡ (turn (S.Shelf.model shelf.old) job.old step next).event }
    ensures shelf { S.Shelf.model shelf.new ≡ (turn (S.Shelf.model shelf.old) job.old step next).model }
{
    let left = job.state.ticks_left();
    let reading = reading_for(shelf, job.state, step);
    let word = word_for(step, reading);
    let outcome = commit_if_due(shelf, job.state, step, reading, word);
    match (job.state, step, outcome) {
        (JobState::Resting, _, _) => Event::Idle,
        (_, Step::Compute { .. }, _) => {
            if left > 1 {
                job.state = JobState::Computing { left: left - 1 };
            } else {
                job.state = JobState::start_of(next);
                job.step += 1;
            }
            Event::Computed
        }
        (_, Step::Access { .. }, Outcome::UnderWay) => {
            job.state = JobState::Attempting {
                left: left.saturating_sub(1),
                seen: reading,
            };
            Event::Attempted
        }
        (_, Step::Access { object, .. }, Outcome::Accepted) => {
            job.state = JobState::start_of(next);
            job.step += 1;
            Event::Committed { object, word }
        }
        (_, Step::Access { ticks, object, .. }, Outcome::Refused) => {
            job.state = JobState::Attempting {
                left: ticks,
                // As in `start_of`.
                seen: 0,
            };
            Event::Retried { object }
        }
    }
}
