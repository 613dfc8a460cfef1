ghost use Rattle.std.specs.Prelude.{◌≤◌, length};
ghost use Rattle.admission.specs.Limits.{AdoptedLimits};

use crate::plan::AdoptedTask;

// A task set that is tested: what is counted of each task, and the longest attempt of any. `Ranked`
// is required by the functions that go by rank, and no ghost field: under earliest deadline first
// all ranks are 0, so it is no fact of every task set.
#[derive(Clone, Copy)]
pub(crate) struct TaskSet<'a> {
    pub(crate) tasks: &'a [AdoptedTask],
    pub(crate) attempt: u32,
    ghost few: { length tasks.now ≤ 32 },
    ghost limits: { AdoptedLimits tasks.now },
    ghost short: { attempt ≤ 65 },
}
