use crate::chart::{Part, write_chart};
use crate::print::{Said, Stamp};
use runs::calls::{Answer, Call};
use std::io;
use std::io::Write;

// The call that opened a batch, and how many tasks its table has.
#[derive(Clone, Copy, Debug, PartialEq, Eq)]
struct Batch {
    from: usize,
    rows: usize,
}

// How far the report is.
#[derive(Clone, Copy, Debug, Default, PartialEq, Eq)]
struct Progress {
    // The next call. Counted here, not by `enumerate`: the count goes on from part to part.
    next: usize,
    // How many tasks the table has.
    tasks: usize,
    // The clock of the batch.
    clock: u32,
    // Where the latest batch begins.
    batch: Option<Batch>,
}

impl Progress {
    // After the answer of the next call.
    fn past(self, call: &Call, answer: Answer) -> Progress {
        let after = Progress {
            next: self.next.saturating_add(1),
            ..self
        };
        match (call, answer) {
            (Call::Adopt { tasks, .. }, Answer::Taken { .. }) => Progress {
                tasks: tasks.len(),
                ..after
            },
            (_, Answer::Opened) => Progress {
                clock: 0,
                batch: Some(Batch {
                    from: self.next,
                    rows: self.tasks,
                }),
                ..after
            },
            (_, Answer::Worked { .. }) => Progress {
                clock: self.clock.saturating_add(1),
                ..after
            },
            _ => after,
        }
    }
}

// An answer on its line; after a table was taken, also a line for each of its tasks.
fn write_answer<W: Write>(out: &mut W, call: &Call, said: Said) -> io::Result<()> {
    writeln!(out, "{said}")?;
    if let (Call::Adopt { tasks, .. }, Answer::Taken { .. }) = (call, said.answer) {
        for (place, task) in tasks.iter().enumerate() {
            let stamp = Stamp { place, task: *task };
            writeln!(out, "{stamp}")?;
        }
    }
    Ok(())
}

// The answers of a part that are not written yet.
fn write_answers<W: Write>(out: &mut W, part: Part<'_>, start: Progress) -> io::Result<Progress> {
    let next = Part {
        from: start.next,
        ..part
    };
    let mut progress = start;
    for (call, answer) in next.steps() {
        progress = progress.past(call, *answer);
        let said = Said {
            clock: progress.clock,
            answer: *answer,
        };
        write_answer(out, call, said)?;
    }
    Ok(progress)
}

// All answers in order, and each chart where it was asked for: `charts` says how many calls come
// before it. Two slices, here alone: a `Part` is made of them at once.
pub fn write_report<W: Write>(
    out: &mut W,
    calls: &[Call],
    answers: &[Answer],
    charts: &[usize],
) -> io::Result<()> {
    let whole = Part {
        calls,
        answers,
        from: 0,
        until: calls.len(),
    };
    let mut progress = Progress::default();
    for until in charts {
        let before = Part {
            until: *until,
            ..whole
        };
        progress = write_answers(out, before, progress)?;
        match progress.batch {
            None => writeln!(out, "no batch")?,
            Some(Batch { from, rows }) => write_chart(out, Part { from, ..before }, rows)?,
        }
    }
    write_answers(out, whole, progress)?;
    Ok(())
}
