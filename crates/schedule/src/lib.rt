// Why a table that is taken keeps its deadlines. Each function here carries theorems: its contract states them of every
// table and every run, and the function itself does nothing. docs/SCHEDULE.md explains the argument.
#![tactic(auto)]

ghost use Rattle.std.specs.Prelude.{◌≡◌};
ghost use Rattle.admission.specs.declared.plan.Rule.{Rule};
ghost use Rattle.schedule.specs.Batches.{ByRank, ByDeadline, order_of};
ghost use Rattle.schedule.specs.Theorems.{AdmittedByRank, AdmittedByDeadline, Admitted, KeepsDeadlines, FinishesBeforeNext, BoundsRetries, RecordTicks, RecordStarts, RecordsIdle, RecordsRun};
ghost use Rattle.schedule.specs.Examples.{RunOf, opening, played, ranked_tasks, ranked_plans, ranked_calls, due_tasks, due_plans, due_calls};

// By rank: if each task has a witness, every pending job has time left until its deadline.
pub fn deadlines_by_rank()
    ensures { KeepsDeadlines AdmittedByRank ByRank }
{}

// Earliest deadline first: if no time is too short for what is due within it, every pending job has time left until its
// deadline.
pub fn deadlines_earliest_first()
    ensures { KeepsDeadlines AdmittedByDeadline ByDeadline }
{}

// A release at least a period after the last finds the last job finished, if the deadline is no later than the period.
pub fn last_job_finished()
    ensures { (rule : Rule) → FinishesBeforeNext (Admitted rule) (order_of rule) (λ task. task.period) }
{}

// Retries are at most preemptions, and preemptions at most releases, whatever the table.
pub fn retries_bounded()
    ensures { (rule : Rule) → BoundsRetries (order_of rule) }
{}

// A job record that starts, ticks or rests makes a step of the batch, whatever the shelf.
pub fn records_step()
    ensures ticks { RecordTicks }
    ensures starts { RecordStarts }
    ensures idles { RecordsIdle }
{}

// So a run of job records is a run of the batch.
pub fn records_run()
    ensures { (rule : Rule) → RecordsRun (order_of rule) }
{}

// A run by rank, of a table that passes: task 0 preempts task 1 inside its attempt, and task 1 retries once.
pub fn example_by_rank()
    ensures run { RunOf AdmittedByRank ByRank 2 ranked_tasks ranked_plans ranked_calls }
    ensures clock { (played ranked_plans ranked_calls opening).clock ≡ 7 }
    ensures reading { (played ranked_plans ranked_calls opening).readings 0 ≡ 11 }
    ensures retries { (played ranked_plans ranked_calls opening).retries ≡ 1 }
    ensures preemptions { (played ranked_plans ranked_calls opening).preemptions ≡ 1 }
{}

// A run by earliest deadline first, of a table that passes: task 1, which is due first, preempts task 0.
pub fn example_earliest_first()
    ensures run { RunOf AdmittedByDeadline ByDeadline 2 due_tasks due_plans due_calls }
    ensures clock { (played due_plans due_calls opening).clock ≡ 6 }
    ensures reading { (played due_plans due_calls opening).readings 0 ≡ 17 }
    ensures retries { (played due_plans due_calls opening).retries ≡ 1 }
    ensures preemptions { (played due_plans due_calls opening).preemptions ≡ 1 }
{}
