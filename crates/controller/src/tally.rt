ghost use Rattle.std.specs.Prelude.{◌≤◌};

// The clock of a batch and what is counted along with it. No `Sums` in it: that is an answer, with
// the pending jobs, and has none of the facts below.
#[derive(Clone, Copy, Debug, PartialEq, Eq)]
pub struct Tally {
    pub clock: u32,
    pub releases: u64,
    pub finished: u32,
    pub retries: u32,
    pub preemptions: u32,
    ghost early: { clock ≤ 1000000000 },
    ghost finishes: { finished ≤ clock },
    ghost retried: { retries ≤ clock },
    ghost preempted: { preemptions ≤ clock },
}
