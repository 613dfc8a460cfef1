ghost use Rattle.std.specs.Prelude.{◌≡◌, ◌<◌, ◌≤◌, true, length, OnSome, slice_get};
ghost use Rattle.admission.specs.Held.{held};
ghost use Rattle.admission.specs.Tables.{goes_by_rank, plan_at};
ghost use Rattle.admission.specs.Tests.{Ordered};

use crate::plan::{AdoptedTask, Rule, Step};
use crate::table::AdoptedTable;
use crate::task_set::TaskSet;

impl AdoptedTable {
    // How its jobs are ordered.
    pub fn rule(&self) -> Rule
        ensures { result ≡ (held self.now).rule }
    {
        self.rule
    }

    // What the tests counted of each task, by its place.
    pub fn tasks(&self) -> &[AdoptedTask]
        ensures are { result.now ≡ (held self.now).tasks }
        ensures few { length result.now ≤ 32 }
    {
        &self.tasks
    }

    // The tasks with the longest attempt, as they were tested.
    pub(crate) fn task_set(&self) -> TaskSet<'_>
        ensures tasks { result.tasks.now ≡ (held self.now).tasks }
        ensures attempt { result.attempt ≡ (held self.now).attempt }
    {
        TaskSet {
            tasks: self.tasks(),
            attempt: self.attempt,
        }
    }

    // By rank: the places, the most urgent first.
    pub fn order(&self) -> &[usize]
        ensures long { length result.now ≡ length (held self.now).tasks }
        ensures ordered { goes_by_rank (held self.now).rule ≡ true → Ordered (held self.now).tasks result.now }
    {
        &self.order
    }

    // The steps of the jobs of a place; none if there is no such place, and no Option, as `plan_at` has
    // it.
    pub fn plan(&self, place: usize) -> &[Step]
        ensures are { result.now ≡ plan_at (held self.now).plans place }
        ensures few { length result.now ≤ 8 }
    {
        if place >= self.plans.len() {
            return &[];
        }
        let plan = &self.plans[place];
        &plan.steps[..plan.count]
    }

    // A step of the jobs of a place.
    pub fn step(&self, place: usize, index: usize) -> Option<Step>
        ensures is { result ≡ slice_get (plan_at (held self.now).plans place) index }
        ensures few { OnSome result (index < 8) }
    {
        self.plan(place).get(index).copied()
    }
}
