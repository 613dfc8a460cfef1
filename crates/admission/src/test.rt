ghost use Rattle.std.specs.Prelude.{◌≡◌, true, length, slice_index};
ghost use Rattle.std.specs.Option.{unwrap_or};
ghost use Rattle.admission.specs.Passing.{Tested};
ghost use Rattle.admission.specs.Search.{max_below};
ghost use Rattle.admission.specs.Tables.{goes_by_rank};
ghost use Rattle.admission.specs.Tests.{Ranked, hyperperiod_of};
ghost use Rattle.admission.specs.Verdicts.{deadlines_no, unless};

use crate::plan::Rule;
use crate::refusal::Refusal;
use crate::task::MAX_TASKS;
use crate::task_set::TaskSet;

// What a table that passes its test is given. The witnesses stand in the front of an array, so that
// it is `Copy`, which a list in fixed memory is not.
#[derive(Clone, Copy, Debug)]
pub struct Passed {
    // The greatest witness, or the hyperperiod: one number, as in the fixed format of the answers, and
    // the rule that was asked for says which.
    pub answer: u32,
    // The least witness of each task, by its place; 0 under earliest deadline first.
    pub witnesses: [u32; MAX_TASKS],
}

// 0 of none, as its definition has it.
fn greatest(numbers: &[u32]) -> u32
    ensures { result ≡ max_below (length numbers.now) (λ k. slice_index numbers.now k) }
{
    numbers.iter().copied().max().unwrap_or(0)
}

impl TaskSet<'_> {
    // The test by rank: each task has a witness.
    fn test_by_rank(&self, rule: Rule) -> Result<Passed, Refusal>
        requires { (goes_by_rank rule ≡ true) × (Ranked self.now.tasks.now) }
        ensures { Tested rule self.now.attempt self.now.tasks.now result }
    {
        let witnesses = self.find_witnesses()?;
        let answer = greatest(&witnesses[..self.tasks.len()]);
        Ok(Passed { answer, witnesses })
    }

    // The test by deadline: there is enough within every time. The answer is the hyperperiod.
    fn test_by_deadline(&self) -> Result<u32, Refusal>
        ensures { result ≡ unless (deadlines_no self.now.attempt self.now.tasks.now) (unwrap_or (hyperperiod_of self.now.tasks.now) 0) }
    {
        let hyperperiod = self.hyperperiod().ok_or(Refusal::LongHyperperiod)?;
        if self.load(hyperperiod) > hyperperiod.ticks as u64 {
            return Err(Refusal::Overload);
        }
        // A match: what is found is the error.
        match self.first_overrun(hyperperiod) {
            Some(at) => Err(Refusal::Unschedulable { at }),
            None => Ok(hyperperiod.ticks),
        }
    }

    // The test of a rule. It is a parameter: the set holds numbers that either rule can be asked of.
    pub(crate) fn test(&self, rule: Rule) -> Result<Passed, Refusal>
        requires { (goes_by_rank rule ≡ true → Ranked self.now.tasks.now) }
        ensures { Tested rule self.now.attempt self.now.tasks.now result }
    {
        if rule.is_by_rank() {
            return self.test_by_rank(rule);
        }
        let answer = self.test_by_deadline()?;
        Ok(Passed {
            answer,
            witnesses: [0; MAX_TASKS],
        })
    }
}
