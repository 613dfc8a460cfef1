ghost use Rattle.std.specs.Prelude.{◌≡◌, ℕ, ◌<◌, not, false, Some};
ghost use Rattle.admission.specs.Held.{held};
ghost use Rattle.controller.specs.Choices.{pending_at};
ghost use Rattle.controller.specs.Machines.{fresh_batch, batch_in, releasing_in, released_in, release_no, tick_of, choice_tick, with_idle, counted, sums_of};
ghost use Rattle.controller.specs.declared.job.Event.TheVariants.{Idle};

use crate::advance::advance;
use crate::job::{Event, Job, JobState, Sums, Ticked};
use crate::tally::Tally;
use admission::refusal::Refusal;
use admission::table::AdoptedTable;
use admission::task::MAX_TASKS;
use shelf::interface::Shelf;

// An open batch. The table is handed in: it outlives the batch.
#[derive(Debug, Drop, PartialEq, Eq)]
pub struct OpenBatch {
    pub(crate) tally: Tally,
    // The latest job of each place. An array beside the lists of the table: the chosen record is lent
    // for writing, a rule of the project.
    pub(crate) jobs: [Job; MAX_TASKS],
    // The place of the job that worked on the last tick, unless it finished.
    last: Option<usize>,
}

impl OpenBatch {
    // Clock and sums at 0, no job pending. No derived Default: a tally has facts to show.
    pub(crate) fn fresh() -> OpenBatch
        ensures { batch_in result ≡ fresh_batch }
    {
        OpenBatch {
            tally: Tally {
                clock: 0,
                releases: 0,
                finished: 0,
                retries: 0,
                preemptions: 0,
            },
            jobs: [Job::default(); MAX_TASKS],
            last: None,
        }
    }

    // Starts a job of a task; answers its absolute deadline.
    pub(crate) fn release(&mut self, table: &AdoptedTable, place: usize) -> Result<u32, Refusal>
        ensures answer { result ≡ releasing_in (held table.now) place (Some (batch_in self.old)) }
        ensures batch { batch_in self.new ≡ released_in (held table.now) place (release_no (held table.now) (batch_in self.old) place) (batch_in self.old) }
    {
        let tasks = table.tasks();
        // No `get` with `ok_or`: speed, as in `Controller::release`.
        if place >= tasks.len() {
            return Err(Refusal::NoPlace);
        }
        let task = tasks[place];
        let job = self.jobs[place];
        let clock = self.tally.clock;
        if !job.is_spaced(task.period, clock) {
            return Err(Refusal::TooSoon);
        }
        if job.state.is_pending() {
            return Err(Refusal::Unfinished);
        }
        self.jobs[place] = Job {
            state: JobState::start_of(table.step(place, 0)),
            step: 0,
            released: Some(clock),
        };
        self.tally.releases = self.tally.releases.saturating_add(1);
        Ok(clock + task.deadline)
    }

    // One tick: the clock rises, and the most urgent pending job works. That the clock is below its
    // end is no fact of every open batch: one that has run out can still be closed. So too in `idle`,
    // `work` and `count`; that a place is below 32: see `next_place`.
    pub(crate) fn tick<S: Shelf>(&mut self, shelf: &mut S, table: &AdoptedTable) -> Ticked
        requires { self.old.tally.clock < 1000000000 }
        ensures answer { result ≡ (tick_of (S.Shelf.model shelf.old) (held table.now) (batch_in self.old)).answer }
        ensures batch { batch_in self.new ≡ (tick_of (S.Shelf.model shelf.old) (held table.now) (batch_in self.old)).batch }
        ensures shelf { S.Shelf.model shelf.new ≡ (tick_of (S.Shelf.model shelf.old) (held table.now) (batch_in self.old)).model }
    {
        match self.next_place(table) {
            None => self.idle(),
            Some(place) => self.work(shelf, table, place),
        }
    }

    // A tick on which nobody works.
    fn idle(&mut self) -> Ticked
        requires { self.old.tally.clock < 1000000000 }
        ensures answer { result ≡ record { place = 0; event = Idle; finished = false } }
        ensures batch { batch_in self.new ≡ with_idle (batch_in self.old) }
    {
        self.tally.clock += 1;
        self.last = None;
        Ticked {
            place: 0,
            event: Event::Idle,
            finished: false,
        }
    }

    // The tick of the job of a place.
    fn work<S: Shelf>(&mut self, shelf: &mut S, table: &AdoptedTable, place: usize) -> Ticked
        requires { (place < 32) × (self.old.tally.clock < 1000000000) }
        ensures answer { result ≡ (choice_tick (S.Shelf.model shelf.old) (held table.now) (batch_in self.old) (Some place)).answer }
        ensures batch { batch_in self.new ≡ (choice_tick (S.Shelf.model shelf.old) (held table.now) (batch_in self.old) (Some place)).batch }
        ensures shelf { S.Shelf.model shelf.new ≡ (choice_tick (S.Shelf.model shelf.old) (held table.now) (batch_in self.old) (Some place)).model }
    {
        let index = self.jobs[place].step;
        // No `?`: a job without a step is an answer, an idle tick, and not an error.
        let Some(step) = table.step(place, index) else {
            return self.idle();
        };
        let next = table.step(place, index + 1);
        let event = advance(shelf, &mut self.jobs[place], step, next);
        self.count(place, event)
    }

    // Counts a tick on which the job of a place has worked.
    fn count(&mut self, place: usize, event: Event) -> Ticked
        requires { (place < 32) × (self.old.tally.clock < 1000000000) }
        ensures answer { result ≡ record { place = place; event = event; finished = not (pending_at self.old.jobs place) } }
        ensures batch { batch_in self.new ≡ counted (batch_in self.old) place event }
    {
        let finished = !self.jobs[place].state.is_pending();
        self.tally.clock += 1;
        if finished {
            self.tally.finished += 1;
        }
        if event.is_retry() {
            self.tally.retries += 1;
        }
        // A preemption: another job, which worked on the last tick, is unfinished.
        if self.last.is_some_and(|other| other != place) {
            self.tally.preemptions += 1;
        }
        self.last = if finished { None } else { Some(place) };
        Ticked {
            place: place as u32,
            event,
            finished,
        }
    }

    // What was counted, and how many jobs of the table's tasks are still pending.
    pub(crate) fn sums(&self, table: &AdoptedTable) -> Sums
        ensures { result ≡ sums_of (held table.now) (batch_in self.now) }
    {
        let tally = self.tally;
        Sums {
            ticks: tally.clock,
            releases: tally.releases,
            finished: tally.finished,
            pending: self.count_pending(table),
            retries: tally.retries,
            preemptions: tally.preemptions,
        }
    }
}
