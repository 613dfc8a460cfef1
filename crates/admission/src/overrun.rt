ghost use Rattle.std.specs.Prelude.{◌≡◌, ℕ, ◌+◌, ◌<◌, ◌≤◌, not, length, is_some, slice_index_or};
ghost use Rattle.admission.specs.Demand.{demand_by_deadline};
ghost use Rattle.admission.specs.Limits.{NumberLimits};
ghost use Rattle.admission.specs.Tables.{no_adopted_task};
ghost use Rattle.admission.specs.Tests.{least_overrun, Steady};

use crate::limit::MAX_PERIOD;
use crate::plan::AdoptedTask;
use crate::span::Span;
use crate::task_set::TaskSet;

// A time after another up to which the demand of one task does not change. The work of its jobs
// comes due at d, d + p, d + 2p and so on, the charge for their retries one tick later. A number,
// no `Span`: it may lie past the longest one.
// The limits are required, as in `share_by_rank`.
fn steady_until(task: &AdoptedTask, at: Span) -> u32
    requires { NumberLimits task.now }
    ensures later { at.ticks < result }
    ensures near { result ≤ at.ticks + 1000000 }
    ensures steady { Steady task.now at.ticks result }
{
    let past = (at.ticks + task.period - task.deadline) % task.period;
    if past == 0 {
        at.ticks + 1
    } else {
        at.ticks + (task.period - past)
    }
}

impl TaskSet<'_> {
    // A time after another up to which the demand of all tasks does not change.
    fn steady_until(&self, at: Span) -> u32
        ensures later { at.ticks < result }
        ensures near { result ≤ at.ticks + 1000000 }
        ensures steady { (a : ℕ) → a < length self.now.tasks.now → Steady (slice_index_or self.now.tasks.now a no_adopted_task) at.ticks result }
    {
        // A loop: the proof of a chain with `min` does not see that each task is one of the list.
        let mut until = at.ticks + MAX_PERIOD;
        for task in self.tasks {
            until = until.min(steady_until(task, at));
        }
        until
    }

    // Whether there is enough within every time up to `end`. The demand never falls as time passes;
    // so a time that is enough clears all times down to its demand, and the search goes on below
    // that.
    fn is_enough(&self, end: Span) -> bool
        ensures { result ≡ not (is_some (least_overrun self.now.attempt self.now.tasks.now end.ticks)) }
    {
        let mut t = end.ticks;
        while t > 0 {
            let needed = self.demand_by_deadline(Span { ticks: t });
            if needed > t as u64 {
                return false;
            }
            t = needed.saturating_sub(1) as u32;
        }
        true
    }

    // The least time up to the hyperperiod within which more is asked for than there is. Most
    // tables have none, which is seen at once; only for the others is the least one looked for from
    // below.
    pub(crate) fn first_overrun(&self, hyperperiod: Span) -> Option<u32>
        ensures { result ≡ least_overrun self.now.attempt self.now.tasks.now hyperperiod.ticks }
    {
        if self.is_enough(hyperperiod) {
            return None;
        }
        let mut t: u32 = 1;
        loop {
            let span = Span { ticks: t };
            if self.demand_by_deadline(span) > t as u64 {
                break Some(t);
            }
            // What is enough at `t` is enough as long as the demand stays the same.
            let next = self.steady_until(span);
            if next > hyperperiod.ticks {
                break None;
            }
            t = next;
        }
    }
}
