ghost use Rattle.std.specs.Prelude.{◌≡◌, ◌≤◌, length, Ok, Err};
ghost use Rattle.admission.specs.Held.{held, Decided};
ghost use Rattle.admission.specs.Tables.{empty_table};
ghost use Rattle.admission.specs.Verdicts.{verdict, answered, held_after, list_after, stamped_by, demanded};

use crate::demand::Among;
use crate::limit::check_lists;
use crate::plan::{AdoptedTask, Rule};
use crate::refusal::Refusal;
use crate::span::Span;
use crate::table::{AdoptedTable, front};
use crate::task::{MAX_TASKS, Segment, Task};
use crate::task_set::TaskSet;
use arrayvec::ArrayVec;
use shelf::interface::Shelf;

// A table that is to be taken, and what the call answers.
#[derive(Drop)]
struct Decision {
    answer: u32,
    table: AdoptedTable,
}

// Asks all the questions about a table. The rule is still a number, as C has it: whether there is
// such a rule is asked after the number of tasks.
fn decide<S: Shelf>(
    shelf: &S,
    number: u32,
    tasks: &[Task],
    segments: &[Segment],
) -> Result<Decision, Refusal>
    ensures { Decided (verdict (S.Shelf.model shelf.now).rules number tasks.now segments.now) (length tasks.now) result }
{
    if tasks.is_empty() || tasks.len() > MAX_TASKS {
        return Err(Refusal::TaskCount);
    }
    let rule = Rule::try_from(number)?;
    let lists = check_lists(shelf, segments, tasks)?;
    let attempt = lists.longest_attempt();
    let adopted = lists.adopted_tasks(rule);
    let set = TaskSet {
        tasks: &adopted,
        attempt,
    };
    let passed = set.test(rule)?;
    let witnesses = front(passed.witnesses, adopted.len());
    let order = set.order(rule);
    let table = AdoptedTable {
        rule,
        attempt,
        tasks: adopted,
        witnesses,
        plans: lists.plans(),
        order,
    };
    Ok(Decision {
        answer: passed.answer,
        table,
    })
}

// Writes rank and witness into the caller's records.
fn stamp(tasks: &mut [Task], adopted: &[AdoptedTask], witnesses: &[u32])
    requires { (length tasks.old ≤ length adopted.now) × (length tasks.old ≤ length witnesses.now) }
    ensures { tasks.new ≡ stamped_by adopted.now witnesses.now tasks.old }
{
    // Not by `zip`, which does not say what the records end as.
    for (place, task) in tasks.iter_mut().enumerate() {
        task.rank = adopted[place].rank;
        task.witness = witnesses[place];
    }
}

impl AdoptedTable {
    // The table without tasks, which meets every inequality. No Default: a rule has none.
    pub fn empty() -> AdoptedTable
        ensures { held result ≡ empty_table }
    {
        AdoptedTable {
            rule: Rule::RateMonotonic,
            attempt: 0,
            tasks: ArrayVec::new(),
            witnesses: ArrayVec::new(),
            plans: ArrayVec::new(),
            order: ArrayVec::new(),
        }
    }

    // Takes the table of the lists in place of this one if it passes all questions; the caller's
    // records then get their rank and witness. Else nothing changes. The rule comes as a number, as
    // C has it: one that is unknown is refused.
    pub fn adopt<S: Shelf>(
        &mut self,
        shelf: &S,
        rule: u32,
        tasks: &mut [Task],
        segments: &[Segment],
    ) -> Result<u32, Refusal>
        ensures answer { result ≡ answered (verdict (S.Shelf.model shelf.now).rules rule tasks.old segments.now) }
        ensures table { held self.new ≡ held_after (verdict (S.Shelf.model shelf.now).rules rule tasks.old segments.now) (held self.old) }
        ensures list { tasks.new ≡ list_after (verdict (S.Shelf.model shelf.now).rules rule tasks.old segments.now) tasks.old }
    {
        let decision = decide(shelf, rule, tasks, segments)?;
        stamp(tasks, &decision.table.tasks, &decision.table.witnesses);
        *self = decision.table;
        Ok(decision.answer)
    }

    // The work and the retry charge at a place within `t` ticks.
    #[tactic(auto, using(crate::proofs::Counted::counted_is))]
    pub fn demand(&self, place: u32, t: u32) -> Result<(u64, u64), Refusal>
        ensures { result ≡ demanded (held self.now) place t }
    {
        let task = self.tasks.get(place as usize).ok_or(Refusal::NoPlace)?;
        let span = Span::try_from(t)?;
        let among = Among::of(self.rule, task.rank);
        Ok(self.task_set().demand_within(among, span))
    }
}
