ghost use Rattle.std.specs.Prelude.{◌≡◌, ℕ, ◌<◌, length, IfOk, Some, None, MatchResult, slice_index};
ghost use Rattle.admission.specs.Tests.{least_witness, lowest_unmet, Ranked};
ghost use Rattle.admission.specs.Verdicts.{ranks_no};

use crate::demand::Among;
use crate::refusal::Refusal;
use crate::span::Span;
use crate::task::MAX_TASKS;
use crate::task_set::TaskSet;

impl TaskSet<'_> {
    // The least witness of each task, by its place, in the front of an array. The tasks are asked in
    // the order of their ranks, and the first that has none is refused.
    pub(crate) fn find_witnesses(&self) -> Result<[u32; MAX_TASKS], Refusal>
        requires { Ranked self.now.tasks.now }
        ensures unmet { MatchResult result (λ _. lowest_unmet self.now.attempt self.now.tasks.now ≡ None) (λ refusal. ranks_no self.now.attempt self.now.tasks.now ≡ Some refusal) }
        ensures least { IfOk result (λ witnesses. (place : ℕ) → place < length self.now.tasks.now → least_witness self.now.attempt self.now.tasks.now place ≡ Some (slice_index witnesses place)) }
    {
        let order = self.places_by_rank();
        // No list: the witnesses are written in the order of the ranks.
        let mut witnesses = [0; MAX_TASKS];
        'tasks: {
            for &place in order.iter() {
                let task = self.tasks[place];
                let among = Among::RankedUpTo(task.rank);
                let mut t: u32 = 1;
                witnesses[place] = 'times: loop {
                    let (work, charge) = self.demand_within(among, Span { ticks: t });
                    let needed = work + charge;
                    if needed <= t as u64 {
                        break 'times t;
                    }
                    if needed > task.deadline as u64 {
                        break 'tasks Err(Refusal::Unschedulable { at: place as u32 });
                    }
                    // The demand never falls as time passes, so no time before `needed` is enough.
                    t = needed as u32;
                };
            }
            Ok(witnesses)
        }
    }
}
