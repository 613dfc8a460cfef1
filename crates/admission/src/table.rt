ghost use Rattle.std.specs.Prelude.{◌≡◌, ◌≤◌, true, false, length, take};
ghost use Rattle.admission.specs.Limits.{EachTask, PeriodFits, DeadlineFits, CostFits};
ghost use Rattle.admission.specs.Tables.{goes_by_rank};
ghost use Rattle.admission.specs.Tests.{MeetsByRank, MeetsByDeadline, RanksBelow, PlacesEntered, EntriesBelow, EntriesRanked};

use crate::plan::{AdoptedTask, Plan, Rule};
use crate::task::MAX_TASKS;
use arrayvec::ArrayVec;

// A table that was taken. It meets its inequality at every moment: by rank each task has a witness,
// by deadline there is enough within every time. Each list has an entry for each task; they are
// lists of their own, since callers read `tasks` and `order` as slices.
#[derive(Drop)]
pub struct AdoptedTable {
    pub(crate) rule: Rule,
    // The longest attempt of any task.
    pub(crate) attempt: u32,
    pub(crate) tasks: ArrayVec<AdoptedTask, MAX_TASKS>,
    pub(crate) witnesses: ArrayVec<u32, MAX_TASKS>,
    pub(crate) plans: ArrayVec<Plan, MAX_TASKS>,
    // By rank: the places, the most urgent first.
    pub(crate) order: ArrayVec<usize, MAX_TASKS>,
    ghost few: { length tasks.items ≤ 32 },
    ghost witnessed: { length witnesses.items ≡ length tasks.items },
    ghost planned: { length plans.items ≡ length tasks.items },
    ghost ordered: { length order.items ≡ length tasks.items },
    ghost periods: { EachTask PeriodFits tasks.items },
    ghost deadlines: { EachTask DeadlineFits tasks.items },
    ghost costs: { EachTask CostFits tasks.items },
    ghost short: { attempt ≤ 65 },
    ghost ranked: { (goes_by_rank rule ≡ true → MeetsByRank attempt tasks.items witnesses.items) },
    ghost below: { (goes_by_rank rule ≡ true → RanksBelow tasks.items) },
    ghost places: { (goes_by_rank rule ≡ true → PlacesEntered tasks.items order.items) },
    ghost entries: { (goes_by_rank rule ≡ true → EntriesBelow tasks.items order.items) },
    ghost entered: { (goes_by_rank rule ≡ true → EntriesRanked tasks.items order.items) },
    ghost due: { (goes_by_rank rule ≡ false → MeetsByDeadline attempt tasks.items) },
}

// The front of an array.
pub(crate) fn front<T: Default + Drop>(
    array: [T; MAX_TASKS],
    count: usize,
) -> ArrayVec<T, MAX_TASKS>
    ensures { result.items ≡ take count array }
{
    let mut list = ArrayVec::from(array);
    list.truncate(count);
    list
}
