use admission::refusal::Refusal;
use admission::task::{Segment, Task};
use controller::job::{Sums, Ticked};

// A call with its arguments, as the controller takes them. Close names the token to hand in by its
// position among those still held, oldest first.
#[derive(Debug, Drop)]
pub enum Call {
    Adopt {
        // A number, as C has it: the adoption refuses what is no rule.
        rule: u32,
        tasks: Vec<Task>,
        segments: Vec<Segment>,
    },
    Open,
    Release {
        place: u32,
    },
    Tick,
    Close {
        which: usize,
    },
    Read {
        object: u32,
    },
    Demand {
        place: u32,
        t: u32,
    },
}

// What a call answered. `NoToken`: there was no such token to hand in, so no call was made.
// Flat, no Result of what was granted: `NoToken` is neither granted nor refused.
#[derive(Clone, Copy, Debug, PartialEq, Eq)]
pub enum Answer {
    Taken { answer: u32 },
    Opened,
    Released { deadline: u32 },
    Worked { tick: Ticked },
    Closed { sums: Sums },
    Reading { reading: u32 },
    Demanded { work: u64, charge: u64 },
    NoToken,
    Refused { refusal: Refusal },
}
