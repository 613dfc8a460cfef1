ghost use Rattle.std.specs.Prelude.{◌≡◌, Some};
ghost use Rattle.scanner.specs.Texts.{said_text, stamp_text, sums_text, tick_text, yes_no_text};

use admission::task::Task;
use controller::job::{Sums, Ticked};
use runs::calls::Answer;
use std::fmt;

// An answer; of a tick, with the clock after it.
#[derive(Clone, Copy, Debug, PartialEq, Eq)]
pub struct Said {
    pub clock: u32,
    pub answer: Answer,
}

// A tick, with the clock after it. A wrapper, since `Ticked` is of another crate, which prints
// nothing.
#[derive(Clone, Copy, Debug, PartialEq, Eq)]
struct TickTold {
    clock: u32,
    tick: Ticked,
}

// The sums of a batch; a wrapper, since `Sums` is of another crate.
#[derive(Clone, Copy, Debug, PartialEq, Eq)]
struct SumsTold {
    sums: Sums,
}

// A task of a table that was taken, with its place in the list.
#[derive(Clone, Copy, Debug, PartialEq, Eq)]
pub struct Stamp {
    pub place: usize,
    pub task: Task,
}

// A word, since a `bool` prints as "true" and "false".
fn yes_no(yes: bool) -> &'static str
    ensures { result.now ≡ yes_no_text yes }
{
    if yes { "yes" } else { "no" }
}

impl fmt::Display for TickTold {
    ghost output = { λ told. Some (tick_text told.clock told.tick) };

    fn fmt<W: fmt::Write>(&self, f: &mut fmt::Formatter<W>) -> fmt::Result {
        let event = self.tick.event;
        write!(
            f,
            "tick {} place {} event {} object {} word {} finished {}",
            self.clock,
            self.tick.place,
            event.number(),
            event.object(),
            event.word(),
            yes_no(self.tick.finished)
        )
    }
}

impl fmt::Display for SumsTold {
    ghost output = { λ told. Some (sums_text told.sums) };

    fn fmt<W: fmt::Write>(&self, f: &mut fmt::Formatter<W>) -> fmt::Result {
        write!(
            f,
            "closed ticks {} releases {} finished {} pending {} retries {} overtakings {}",
            self.sums.ticks,
            self.sums.releases,
            self.sums.finished,
            self.sums.pending,
            self.sums.retries,
            self.sums.preemptions
        )
    }
}

impl fmt::Display for Said {
    ghost output = { λ said. Some (said_text said) };

    fn fmt<W: fmt::Write>(&self, f: &mut fmt::Formatter<W>) -> fmt::Result {
        match self.answer {
            Answer::Taken { answer } => write!(f, "taken {answer}"),
            Answer::Opened => write!(f, "opened"),
            Answer::Released { deadline } => write!(f, "released {deadline}"),
            Answer::Worked { tick } => {
                let told = TickTold {
                    clock: self.clock,
                    tick,
                };
                write!(f, "{told}")
            }
            Answer::Closed { sums } => {
                let told = SumsTold { sums };
                write!(f, "{told}")
            }
            Answer::Reading { reading } => write!(f, "reading {reading}"),
            Answer::Demanded { work, charge } => write!(f, "demand {work} {charge}"),
            Answer::NoToken => write!(f, "no token"),
            Answer::Refused { refusal } => {
                write!(f, "refused {} {}", refusal.number(), refusal.detail())
            }
        }
    }
}

impl fmt::Display for Stamp {
    ghost output = { λ stamp. Some (stamp_text stamp) };

    fn fmt<W: fmt::Write>(&self, f: &mut fmt::Formatter<W>) -> fmt::Result {
        write!(
            f,
            "task {} rank {} witness {}",
            self.place, self.task.rank, self.task.witness
        )
    }
}
