ghost use Rattle.std.specs.Prelude.{◌≡◌, [], ◌∷◌, is_ok, if◌then◌else◌};
ghost use Rattle.runs.specs.Entries.{entry_of};
ghost use Rattle.scanner.specs.Plans.{draft, blank, drafted, with_calls, tokens_opened, token_next, tokens_closed};

use crate::script::Line;
use admission::task::{Segment, Task};
use runs::calls::Call;
use std::alloc::{AllocError, Global};
use thiserror::Error;

// The most calls that a script can make.
pub const MOST_CALLS: usize = 1_000_000;

// Why a line cannot be added.
#[derive(Clone, Copy, Debug, PartialEq, Eq, Error)]
pub enum PlanError {
    #[error("out of memory")]
    OutOfMemory(#[from(alloc)] AllocError),
    #[error("a script makes at most {MOST_CALLS} calls")]
    TooManyCalls,
}

// The tokens held once the calls planned so far are made. `open` gives a good one exactly while no
// batch is open, and a good one always closes its batch, so this follows from the lines alone.
#[derive(Clone, Copy, Debug, Default, PartialEq, Eq)]
struct Tokens {
    // The position of the good one.
    good: Option<usize>,
    voids: usize,
}

// What the lines so far say: the lists for the next adoption, and the calls.
#[derive(Debug, Drop)]
pub struct Plan {
    heap: Global,
    // A number, as the call takes it, and 0 before the first: the adoption refuses what is no rule.
    rule: u32,
    tasks: Vec<Task>,
    segments: Vec<Segment>,
    tokens: Tokens,
    pub calls: Vec<Call>,
    // How many calls come before each chart.
    pub charts: Vec<usize>,
}

impl Tokens {
    fn opened(self) -> Tokens
        ensures { result ≡ tokens_opened self.good self.voids }
    {
        match self.good {
            None => Tokens {
                good: Some(self.voids),
                ..self
            },
            Some(_) => Tokens {
                voids: self.voids.saturating_add(1),
                ..self
            },
        }
    }

    // The one to hand in: the good one if there is one, else the oldest void one.
    fn next(self) -> usize
        ensures { result ≡ token_next self.good }
    {
        self.good.unwrap_or(0)
    }

    fn closed(self) -> Tokens
        ensures { result ≡ tokens_closed self.good self.voids }
    {
        let voids = match self.good {
            None => self.voids.saturating_sub(1),
            Some(_) => self.voids,
        };
        Tokens { good: None, voids }
    }
}

impl Plan {
    // Rule 0, empty lists and no calls.
    pub fn new(heap: Global) -> Plan
        ensures { draft result ≡ blank }
    {
        Plan {
            heap,
            rule: 0,
            tasks: Vec::new(heap),
            segments: Vec::new(heap),
            tokens: Tokens::default(),
            calls: Vec::new(heap),
            charts: Vec::new(heap),
        }
    }

    // Adds what a line says, or nothing.
    pub fn add(&mut self, line: Line) -> Result<(), PlanError>
        ensures { draft self.new ≡ (if is_ok result then drafted line (draft self.old) else draft self.old) }
    {
        match line {
            Line::Rule { rule } => self.rule = rule,
            Line::Task { task } => self.tasks.push(task)?,
            Line::Segment { segment } => self.segments.push(segment)?,
            Line::Clear => {
                self.tasks.clear();
                self.segments.clear();
            }
            Line::Adopt => self.adopt()?,
            Line::Open => {
                self.call(Call::Open)?;
                self.tokens = self.tokens.opened();
            }
            Line::Release { place } => self.call(Call::Release { place })?,
            Line::Tick { times } => self.tick(times)?,
            Line::Close => {
                let which = self.tokens.next();
                self.call(Call::Close { which })?;
                self.tokens = self.tokens.closed();
            }
            Line::Read { object } => self.call(Call::Read { object })?,
            Line::Demand { place, time } => self.call(Call::Demand { place, t: time })?,
            Line::Chart => self.charts.push(self.calls.len())?,
        }
        Ok(())
    }

    fn call(&mut self, call: Call) -> Result<(), PlanError>
        ensures { draft self.new ≡ (if is_ok result then with_calls (draft self.old) self.old.tokens (entry_of call ∷ []) else draft self.old) }
    {
        if self.calls.len() >= MOST_CALLS {
            return Err(PlanError::TooManyCalls);
        }
        self.calls.push(call)?;
        Ok(())
    }

    // The lists stay as they are; the call gets copies.
    fn adopt(&mut self) -> Result<(), PlanError>
        ensures { draft self.new ≡ (if is_ok result then drafted Line.Adopt (draft self.old) else draft self.old) }
    {
        let tasks = self.tasks.as_slice().to_vec(self.heap)?;
        let segments = self.segments.as_slice().to_vec(self.heap)?;
        self.call(Call::Adopt {
            rule: self.rule,
            tasks,
            segments,
        })
    }

    fn tick(&mut self, times: u32) -> Result<(), PlanError>
        ensures { draft self.new ≡ (if is_ok result then drafted (Line.Tick times) (draft self.old) else draft self.old) }
    {
        let more = times as usize;
        if more > MOST_CALLS || self.calls.len() > MOST_CALLS - more {
            return Err(PlanError::TooManyCalls);
        }
        self.calls
            .resize_with(self.calls.len() + more, || Call::Tick)?;
        Ok(())
    }
}
