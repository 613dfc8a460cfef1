ghost use Rattle.std.specs.Prelude.{◌≡◌, ◌<◌, true, length, IfSome};
ghost use Rattle.admission.specs.Held.{held};
ghost use Rattle.admission.specs.Search.{count_below};
ghost use Rattle.admission.specs.Tables.{goes_by_rank};
ghost use Rattle.controller.specs.Choices.{urgency_of, chosen, pending_at};

use crate::batch::OpenBatch;
use crate::job::Job;
use admission::plan::{AdoptedTask, Rule};
use admission::table::AdoptedTable;

// The urgency of a job: its rank, or its absolute deadline and then its release. The lower goes
// first.
fn urgency(rule: Rule, task: &AdoptedTask, job: &Job) -> (u64, u64)
    ensures { result ≡ urgency_of rule task.now job.now }
{
    if rule.is_by_rank() {
        return (task.rank as u64, 0);
    }
    // 0 with no release, as its definition has it: pending jobs, which are compared, have one.
    let released = job.released.unwrap_or(0) as u64;
    (released + task.deadline as u64, released)
}

impl OpenBatch {
    // The place of the pending job that works next: the most urgent, and of equals the lowest place.
    // By rank, the order of the places finds it with no comparing. That a place is below 32 is a
    // clause, and no type of places: ticks by rank fall below the peer's speed with one.
    pub(crate) fn next_place(&self, table: &AdoptedTable) -> Option<usize>
        ensures is { result ≡ chosen (held table.now).rule (held table.now).tasks self.now.jobs }
        ensures inside { IfSome result (λ place. place < 32) }
    {
        if table.rule().is_by_rank() {
            self.lowest_ranked(table)
        } else {
            self.most_urgent(table)
        }
    }

    // Whether the job of a place is pending: no job where there is no such place.
    fn is_pending_at(&self, place: usize) -> bool
        ensures { result ≡ pending_at self.now.jobs place }
    {
        self.jobs
            .get(place)
            .is_some_and(|job| job.state.is_pending())
    }

    // By rank: the pending job of lowest rank, the first that the order of the places comes to.
    fn lowest_ranked(&self, table: &AdoptedTable) -> Option<usize>
        requires { goes_by_rank (held table.now).rule ≡ true }
        ensures is { result ≡ chosen (held table.now).rule (held table.now).tasks self.now.jobs }
        ensures inside { IfSome result (λ place. place < 32) }
    {
        table
            .order()
            .iter()
            .copied()
            .find(|place| self.is_pending_at(*place))
    }

    // Under any rule: the most urgent pending job, found by comparing all of them, and of equals the
    // first. A loop: `min_by_key` makes ticks by deadline slower.
    fn most_urgent(&self, table: &AdoptedTable) -> Option<usize>
        ensures is { result ≡ chosen (held table.now).rule (held table.now).tasks self.now.jobs }
        ensures inside { IfSome result (λ place. place < 32) }
    {
        let mut best: Option<(usize, (u64, u64))> = None;
        for (place, task) in table.tasks().iter().enumerate() {
            let job = &self.jobs[place];
            if !job.state.is_pending() {
                continue;
            }
            let urgency = urgency(table.rule(), task, job);
            if best.is_none_or(|(_, least)| urgency < least) {
                best = Some((place, urgency));
            }
        }
        best.map(|(place, _)| place)
    }

    // How many jobs of the table's tasks are pending.
    pub(crate) fn count_pending(&self, table: &AdoptedTable) -> u32
        ensures { result ≡ count_below (length (held table.now).tasks) (pending_at self.now.jobs) }
    {
        self.jobs[..table.tasks().len()]
            .iter()
            .filter(|job| job.state.is_pending())
            .count() as u32
    }
}
