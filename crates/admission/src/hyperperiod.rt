ghost use Rattle.std.specs.Prelude.{◌≡◌, ◌<◌, ◌≤◌, length, IfSome, MatchOption, Some, None};
ghost use Rattle.admission.specs.Multiples.{IsGcd, IsLcm, IsHyperperiod};
ghost use Rattle.admission.specs.Tests.{hyperperiod_of, load_of};

use crate::span::Span;
use crate::task_set::TaskSet;

// The longest hyperperiod of a table that is taken.
const MAX_HYPERPERIOD: u64 = 1_000_000;

// The greatest common divisor.
pub fn gcd(a: u64, b: u64) -> u64
    ensures { IsGcd a b result }
{
    if b == 0 { a } else { gcd(b, a % b) }
}

// The least common multiple.
fn lcm(a: u64, b: u64) -> u64
    requires { (0 < a) × ((0 < b) × ((a ≤ 1000000) × (b ≤ 1000000))) }
    ensures positive { 0 < result }
    ensures is { IsLcm a b result }
{
    a / gcd(a, b) * b
}

impl TaskSet<'_> {
    // The least common multiple of the periods, if it is at most 1,000,000.
    pub(crate) fn hyperperiod(&self) -> Option<Span>
        ensures is { MatchOption result (hyperperiod_of self.now.tasks.now ≡ None) (λ p. hyperperiod_of self.now.tasks.now ≡ Some p.ticks) }
        ensures least { IfSome result (λ p. IsHyperperiod self.now.tasks.now (length self.now.tasks.now) p.ticks) }
    {
        let mut multiple: u64 = 1;
        for task in self.tasks {
            multiple = lcm(multiple, task.period as u64);
            if multiple > MAX_HYPERPERIOD {
                return None;
            }
        }
        Some(Span {
            ticks: multiple as u32,
        })
    }

    // The ticks that the jobs of one hyperperiod take, each at its cost and one attempt more.
    pub(crate) fn load(&self, hyperperiod: Span) -> u64
        ensures { result ≡ load_of self.now.attempt self.now.tasks.now hyperperiod.ticks }
    {
        let mut sum: u64 = 0;
        for task in self.tasks {
            let jobs = (hyperperiod.ticks / task.period) as u64;
            sum += jobs * (task.cost + self.attempt) as u64;
        }
        sum
    }
}
