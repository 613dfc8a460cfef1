ghost use Rattle.std.specs.Prelude.{◌≡◌, map};
ghost use Rattle.admission.specs.Tables.{adopted_tasks_of, step_of, steps_in, plans_of_tasks};

use crate::lists::{Lists, Owned};
use crate::plan::{AdoptedTask, Plan, Rule, Step};
use crate::task::{MAX_SEGMENTS, MAX_TASKS};
use arrayvec::ArrayVec;

impl Owned<'_> {
    // The steps of a job.
    fn plan(&self) -> Plan
        ensures { steps_in result ≡ map step_of self.now.segments.now }
    {
        let mut steps = [Step::default(); MAX_SEGMENTS];
        for (k, segment) in self.segments.iter().enumerate() {
            steps[k] = Step::from(*segment);
        }
        Plan {
            count: self.segments.len(),
            steps,
        }
    }
}

impl Lists<'_> {
    // What the tests count of each task.
    pub(crate) fn adopted_tasks(&self, rule: Rule) -> ArrayVec<AdoptedTask, MAX_TASKS>
        ensures { result.items ≡ adopted_tasks_of rule self.now.segments.now self.now.tasks.now }
    {
        let mut all = ArrayVec::new();
        for (place, task) in self.tasks.iter().enumerate() {
            all.push(AdoptedTask {
                period: task.period,
                deadline: task.deadline,
                cost: self.owned(task).job_cost(),
                rank: self.rank_at(rule, place),
            });
        }
        all
    }

    // The steps of each task's jobs.
    pub(crate) fn plans(&self) -> ArrayVec<Plan, MAX_TASKS>
        ensures { map steps_in result.items ≡ plans_of_tasks self.now.segments.now self.now.tasks.now }
    {
        let mut plans = ArrayVec::new();
        for task in self.tasks {
            plans.push(self.owned(task).plan());
        }
        plans
    }
}
