ghost use Rattle.std.specs.Prelude.{◌≡◌, ◌<◌};
ghost use Rattle.std.specs.Iterator.Adapters.{skip_source, skip_count, take_count};

use crate::print::Said;
use controller::job::{Event, Ticked};
use runs::calls::{Answer, Call};
use std::io;
use std::io::Write;
use std::iter::{Skip, Take, Zip};
use std::slice::Iter;

// A part of a run: the calls from one on, up to another, and what they answered. Positions, not
// slices: `take` and `skip` need no proof that both lie in the run, in order.
#[derive(Clone, Copy, Debug)]
pub struct Part<'a> {
    pub calls: &'a [Call],
    pub answers: &'a [Answer],
    pub from: usize,
    pub until: usize,
}

impl<'a> Part<'a> {
    pub fn steps(self) -> Skip<Take<Zip<Iter<'a, Call>, Iter<'a, Answer>>>>
        ensures from { skip_count result ≡ self.entry.from }
        ensures until { take_count (skip_source result) ≡ self.entry.until }
    {
        self.calls
            .iter()
            .zip(self.answers)
            .take(self.until)
            .skip(self.from)
    }

    fn ticks(self) -> usize {
        self.steps()
            .filter(|step| matches!(step.1, Answer::Worked { .. }))
            .count()
    }
}

// How the latest job of a place stands.
#[derive(Clone, Copy, Debug, Default, PartialEq, Eq)]
enum State {
    // It has finished, or there is none.
    #[default]
    Resting,
    Waiting,
    // It worked on the last tick.
    AtWork,
}

// The latest job of a place as the ticks go by.
#[derive(Clone, Copy, Debug, Default, PartialEq, Eq)]
struct Row {
    place: usize,
    clock: u32,
    // It was released since the last tick. A flag beside no value: the deadline lasts longer.
    fresh: bool,
    // Its absolute deadline.
    due: Option<u32>,
    state: State,
}

const LEGEND: &str =
    "jobs: > released before this tick, < last tick in time, x both\nwork: = computes, a attempt under way, C commits, R retries, p preempted, - waits, . no job\n";

impl Row {
    fn released(self, deadline: u32) -> Row {
        let state = match self.state {
            State::Resting => State::Waiting,
            pending => pending,
        };
        Row {
            fresh: true,
            due: Some(deadline),
            state,
            ..self
        }
    }

    fn works(self, tick: Ticked) -> bool {
        match tick.event {
            Event::Idle => false,
            _ => tick.place as usize == self.place,
        }
    }

    // Release and deadline, as they fall on the next tick.
    fn job_mark(self) -> &'static str {
        let last = self.due == Some(self.clock.saturating_add(1));
        match (self.fresh, last) {
            (true, true) => "x",
            (true, false) => ">",
            (false, true) => "<",
            (false, false) => " ",
        }
    }

    // What a tick did to the job.
    fn work_mark(self, tick: Ticked) -> &'static str {
        if !self.works(tick) {
            return match self.state {
                State::Resting => ".",
                State::AtWork => "p",
                State::Waiting => "-",
            };
        }
        match tick.event {
            Event::Computed => "=",
            Event::Attempted => "a",
            Event::Committed { .. } => "C",
            Event::Retried { .. } => "R",
            Event::Idle => ".",
        }
    }

    fn ticked(self, tick: Ticked) -> Row {
        let state = match (self.state, self.works(tick)) {
            (State::Resting, _) => State::Resting,
            (_, false) => State::Waiting,
            (_, true) if tick.finished => State::Resting,
            (_, true) => State::AtWork,
        };
        Row {
            clock: self.clock.saturating_add(1),
            fresh: false,
            state,
            ..self
        }
    }
}

// One line of a task: `mark` says what stands in the column of a tick. Texts, not characters: they are
// written faster.
fn write_row<'a, W: Write, F: Fn(Row, Ticked) -> &'a str>(
    out: &mut W,
    part: Part<'_>,
    place: usize,
    mark: F,
) -> io::Result<()>
    requires { F.IsAlwaysCallable mark }
{
    let mut row = Row {
        place,
        ..Row::default()
    };
    for (call, answer) in part.steps() {
        match (call, answer) {
            (Call::Release { place }, Answer::Released { deadline }) => {
                if *place as usize == row.place {
                    row = row.released(*deadline);
                }
            }
            (_, Answer::Worked { tick }) => {
                write!(out, "{}", mark(row, *tick))?;
                row = row.ticked(*tick);
            }
            _ => {}
        }
    }
    writeln!(out, "")
}

// The numbers of the ticks, a digit a column.
fn write_ruler<W: Write>(out: &mut W, ticks: usize, unit: usize) -> io::Result<()>
    requires { 0 < unit }
{
    for clock in 1..=ticks {
        if clock % unit == 0 {
            write!(out, "{}", clock / unit % 10)?;
        } else {
            write!(out, " ")?;
        }
    }
    writeln!(out, "")
}

// How the batch was closed, if it was.
fn write_sums<W: Write>(out: &mut W, part: Part<'_>) -> io::Result<()> {
    for (_, answer) in part.steps() {
        if let Answer::Closed { .. } = answer {
            // Any clock: sums are printed with none.
            let said = Said {
                clock: 0,
                answer: *answer,
            };
            writeln!(out, "{said}")?;
        }
    }
    Ok(())
}

// A timeline of a batch: two lines a task, a column a tick.
pub fn write_chart<W: Write>(out: &mut W, part: Part<'_>, rows: usize) -> io::Result<()> {
    let ticks = part.ticks();
    write!(out, "tick          ")?;
    write_ruler(out, ticks, 10)?;
    write!(out, "              ")?;
    write_ruler(out, ticks, 1)?;
    for place in 0..rows {
        write!(out, "task {place:2} jobs  ")?;
        write_row(out, part, place, |row, _| row.job_mark())?;
        write!(out, "        work  ")?;
        write_row(out, part, place, |row, tick| row.work_mark(tick))?;
    }
    write!(out, "{LEGEND}")?;
    write_sums(out, part)
}
