ghost use Rattle.std.specs.Prelude.{◌≡◌, ◌+◌, ◌-◌, ◌/◌, ◌≤◌};
ghost use Rattle.admission.specs.Demand.{work_by_rank, charge_by_rank, work_by_deadline, charge_by_deadline, work_share, charge_share, work_within, charge_within, demand_by_deadline, among_of, rule_among, rank_among};
ghost use Rattle.admission.specs.Limits.{NumberLimits};

use crate::plan::{AdoptedTask, Rule};
use crate::span::Span;
use crate::task_set::TaskSet;

// Whose jobs are counted. No Option of a rank: None would not say that all are.
#[derive(Clone, Copy, Debug, PartialEq, Eq)]
pub(crate) enum Among {
    // By rank: those of the tasks ranked up to a rank.
    RankedUpTo(u32),
    // By deadline: those of all tasks.
    All,
}

impl Among {
    // Whose jobs a rule counts for a task of a rank.
    pub(crate) fn of(rule: Rule, rank: u32) -> Among
        ensures { result ≡ among_of rule rank }
    {
        if rule.is_by_rank() {
            Among::RankedUpTo(rank)
        } else {
            Among::All
        }
    }
}

// How many whole periods there are in `span` ticks, and in one tick less. One division does for
// both: the tests spend their time here.
fn periods_in(span: u32, period: u32) -> (u32, u32)
    requires { (1 ≤ span) × (1 ≤ period) }
    ensures whole { result.0 ≡ span / period }
    ensures less { result.1 ≡ (span - 1) / period }
{
    let whole = span / period;
    if span % period == 0 {
        (whole, whole - 1)
    } else {
        (whole, whole)
    }
}

impl TaskSet<'_> {
    // By rank: the work and the retry charge that one task adds within a span. The limits of the
    // task are required here, no ghost fields of it: the definitions also speak of tasks without
    // numbers. `small` is said again by `share_by_deadline` and `share`: a pair has no invariant.
    fn share_by_rank(&self, task: &AdoptedTask, rank: u32, span: Span) -> (u64, u64)
        requires { NumberLimits task.now }
        ensures work { result.0 ≡ work_by_rank rank span.ticks task.now }
        ensures charge { result.1 ≡ charge_by_rank self.now.attempt rank span.ticks task.now }
        ensures small { (result.0 ≤ 1600000000000) × (result.1 ≤ 130000000) }
    {
        if task.rank > rank {
            return (0, 0);
        }
        let (jobs, before) = periods_in(span.ticks + (task.period - 1), task.period);
        let work = jobs as u64 * task.cost as u64;
        if task.rank == rank {
            return (work, 0);
        }
        (work, before as u64 * self.attempt as u64)
    }

    // By deadline: the work and the retry charge that one task adds within a span.
    fn share_by_deadline(&self, task: &AdoptedTask, span: Span) -> (u64, u64)
        requires { NumberLimits task.now }
        ensures work { result.0 ≡ work_by_deadline span.ticks task.now }
        ensures charge { result.1 ≡ charge_by_deadline self.now.attempt span.ticks task.now }
        ensures small { (result.0 ≤ 1600000000000) × (result.1 ≤ 130000000) }
    {
        let (jobs, before) = periods_in(span.ticks + task.period - task.deadline, task.period);
        (
            jobs as u64 * task.cost as u64,
            before as u64 * self.attempt as u64,
        )
    }

    // The work and the retry charge that one task adds within a span.
    fn share(&self, among: Among, task: &AdoptedTask, span: Span) -> (u64, u64)
        requires { NumberLimits task.now }
        ensures work { result.0 ≡ work_share (rule_among among) (rank_among among) span.ticks task.now }
        ensures charge { result.1 ≡ charge_share (rule_among among) self.now.attempt (rank_among among) span.ticks task.now }
        ensures small { (result.0 ≤ 1600000000000) × (result.1 ≤ 130000000) }
    {
        match among {
            Among::RankedUpTo(rank) => self.share_by_rank(task, rank, span),
            Among::All => self.share_by_deadline(task, span),
        }
    }

    // The work and the retry charge within a span, of the jobs that are counted.
    pub(crate) fn demand_within(&self, among: Among, span: Span) -> (u64, u64)
        ensures work { result.0 ≡ work_within (rule_among among) self.now.tasks.now (rank_among among) span.ticks }
        ensures charge { result.1 ≡ charge_within (rule_among among) self.now.attempt self.now.tasks.now (rank_among among) span.ticks }
        ensures small { result.0 + result.1 ≤ 60000000000000 }
    {
        let mut work: u64 = 0;
        let mut charge: u64 = 0;
        for task in self.tasks {
            let (more_work, more_charge) = self.share(among, task, span);
            work += more_work;
            charge += more_charge;
        }
        (work, charge)
    }

    // What the jobs released and due within a span can ask for.
    pub(crate) fn demand_by_deadline(&self, span: Span) -> u64
        ensures { result ≡ demand_by_deadline self.now.attempt self.now.tasks.now span.ticks }
    {
        let (work, charge) = self.demand_within(Among::All, span);
        work + charge
    }
}
