ghost use Rattle.std.specs.Prelude.{◌≡◌};
ghost use Rattle.controller.specs.Machines.{machine, new_machine, adopting, adopted, stamped_list, opening, opened, openable, releasing, released, ticking, ticked, closing, closed, reading_of, demand_of};

use crate::batch::OpenBatch;
use crate::job::{Sums, Ticked};
use crate::token::BatchToken;
use admission::refusal::Refusal;
use admission::table::AdoptedTable;
use admission::task::{Segment, Task};
use shelf::interface::Shelf;

// The clock at which a batch takes no more ticks.
const LAST_CLOCK: u32 = 1_000_000_000;

// What the controller keeps besides its shelf: the table that it took, and the batch while one runs.
#[derive(Drop)]
pub struct Core {
    table: AdoptedTable,
    batch: Option<OpenBatch>,
}

// A controller over a shelf that nobody else touches. No impl Model: a machine holds a function, the
// rules of its objects, and a model's value cannot.
#[derive(Drop)]
pub struct Controller<S> {
    shelf: S,
    core: Core,
}

impl<S: Shelf> Controller<S> {
    // Factory-new: the empty table, and no batch.
    pub fn new(shelf: S) -> Controller<S>
        ensures shelf { result.shelf ≡ shelf }
        ensures machine { machine (S.Shelf.model result.shelf) result.core ≡ new_machine (S.Shelf.model shelf) }
    {
        Controller {
            shelf,
            core: Core {
                table: AdoptedTable::empty(),
                batch: None,
            },
        }
    }

    // Takes a task table if it passes all questions; the records then get rank and witness. Answers
    // the greatest witness, or the hyperperiod under earliest deadline first. The rule comes as a
    // number, as C has it: one that is unknown is refused.
    pub fn adopt(
        &mut self,
        rule: u32,
        tasks: &mut [Task],
        segments: &[Segment],
    ) -> Result<u32, Refusal>
        ensures answer { result ≡ adopting (machine (S.Shelf.model self.old.shelf) self.old.core) rule tasks.old segments.now }
        ensures machine { machine (S.Shelf.model self.new.shelf) self.new.core ≡ adopted (machine (S.Shelf.model self.old.shelf) self.old.core) rule tasks.old segments.now }
        ensures list { tasks.new ≡ stamped_list (machine (S.Shelf.model self.old.shelf) self.old.core) rule tasks.old segments.now }
    {
        if self.core.batch.is_some() {
            return Err(Refusal::BatchOpen);
        }
        self.core.table.adopt(&self.shelf, rule, tasks, segments)
    }

    // Opens a batch: clock and sums at 0, no job pending. The token is good, or void on a refusal.
    pub fn open(&mut self) -> (Result<(), Refusal>, BatchToken)
        ensures answer { result.0 ≡ opening (machine (S.Shelf.model self.old.shelf) self.old.core) }
        ensures token { result.1.good ≡ openable (machine (S.Shelf.model self.old.shelf) self.old.core).batch }
        ensures machine { machine (S.Shelf.model self.new.shelf) self.new.core ≡ opened (machine (S.Shelf.model self.old.shelf) self.old.core) }
    {
        if self.core.batch.is_some() {
            return (Err(Refusal::AlreadyOpen), BatchToken::fresh(false));
        }
        self.core.batch = Some(OpenBatch::fresh());
        (Ok(()), BatchToken::fresh(true))
    }

    // Starts a job of a task; answers its absolute deadline.
    pub fn release(&mut self, place: u32) -> Result<u32, Refusal>
        ensures answer { result ≡ releasing (machine (S.Shelf.model self.old.shelf) self.old.core) place }
        ensures machine { machine (S.Shelf.model self.new.shelf) self.new.core ≡ released (machine (S.Shelf.model self.old.shelf) self.old.core) place }
    {
        // No `as_mut().ok_or(..)?`, here and in `tick`: batches by rank fall below the peer's speed
        // with it.
        let Some(batch) = &mut self.core.batch else {
            return Err(Refusal::NoBatch);
        };
        batch.release(&self.core.table, place as usize)
    }

    // One tick of the batch: the clock rises, and the most urgent pending job works.
    pub fn tick(&mut self) -> Result<Ticked, Refusal>
        ensures answer { result ≡ ticking (machine (S.Shelf.model self.old.shelf) self.old.core) }
        ensures machine { machine (S.Shelf.model self.new.shelf) self.new.core ≡ ticked (machine (S.Shelf.model self.old.shelf) self.old.core) }
    {
        // No `?`: see `release`.
        let Some(batch) = &mut self.core.batch else {
            return Err(Refusal::NoBatch);
        };
        if batch.tally.clock >= LAST_CLOCK {
            return Err(Refusal::ClockEnd);
        }
        Ok(batch.tick(&mut self.shelf, &self.core.table))
    }

    // Ends the batch, drops pending jobs and answers the sums. The token is spent, refusal or not.
    pub fn close(&mut self, token: BatchToken) -> Result<Sums, Refusal>
        ensures answer { result ≡ closing (machine (S.Shelf.model self.old.shelf) self.old.core) token.good }
        ensures machine { machine (S.Shelf.model self.new.shelf) self.new.core ≡ closed (machine (S.Shelf.model self.old.shelf) self.old.core) token.good }
    {
        if !token.spend() {
            return Err(Refusal::VoidToken);
        }
        let batch = self.core.batch.take().ok_or(Refusal::NoBatch)?;
        Ok(batch.sums(&self.core.table))
    }

    // The reading of an object.
    pub fn read(&self, object: u32) -> Result<u32, Refusal>
        ensures { result ≡ reading_of (machine (S.Shelf.model self.now.shelf) self.now.core) object }
    {
        if !self.shelf.has(object) {
            return Err(Refusal::NoObject);
        }
        Ok(self.shelf.look(object))
    }

    // The work and the retry charge of the task at a place, and of those that can delay it, within
    // `t` ticks.
    pub fn demand(&self, place: u32, t: u32) -> Result<(u64, u64), Refusal>
        ensures { result ≡ demand_of (machine (S.Shelf.model self.now.shelf) self.now.core) place t }
    {
        self.core.table.demand(place, t)
    }
}
