ghost use Rattle.std.specs.Prelude.{◌≡◌, ◌≤◌};
ghost use Rattle.admission.specs.Lengths.{attempt_ticks_of, cost, longest, longest_attempt_of};

use crate::lists::{Lists, Owned};
use crate::plan::Step;

// The ticks of one attempt that copies `size` words.
#[tactic(auto, unfolding(crate::specs::Lengths::attempt_ticks_of))]
pub fn attempt_ticks(size: u32) -> u32
    ensures { result ≡ attempt_ticks_of size }
{
    1 + size.div_ceil(4)
}

impl Owned<'_> {
    // The ticks of a job whose every access succeeds at the first attempt.
    pub(crate) fn job_cost(&self) -> u32
        ensures { result ≡ cost self.now.segments.now }
    {
        let mut sum: u32 = 0;
        for segment in self.segments {
            sum += Step::from(*segment).ticks();
        }
        sum
    }

    // The longest attempt of a job, 0 without accesses, as its definition has it.
    fn longest_attempt(&self) -> u32
        ensures is { result ≡ longest self.now.segments.now }
        ensures short { result ≤ 65 }
    {
        let attempts = self
            .segments
            .iter()
            .map(|segment| Step::from(*segment).attempt());
        attempts.max().unwrap_or(0)
    }
}

impl Lists<'_> {
    // The longest attempt of any task, 0 without accesses.
    pub(crate) fn longest_attempt(&self) -> u32
        ensures is { result ≡ longest_attempt_of self.now.segments.now self.now.tasks.now }
        ensures short { result ≤ 65 }
    {
        // A loop: the proof of a chain does not see that each task is one of the list.
        let mut most: u32 = 0;
        for task in self.tasks {
            most = most.max(self.owned(task).longest_attempt());
        }
        most
    }
}
