ghost use Rattle.std.specs.Prelude.{◌≡◌, ◌≤◌, length, Some, IfOk, MatchResult, ◌≢◌};
ghost use Rattle.std.specs.Str.Iter.{split_whitespace_rest};
ghost use Rattle.scanner.specs.Parsing.{Reads, Misread, Numbered, WrongAfter, Parsed};
ghost use Rattle.scanner.specs.Lines.{Uncommented, spelled, arity_of, line_of};

use admission::task::{Segment, Task};
use arrayvec::ArrayVec;
use std::fmt;
use std::str::{FromStr, SplitWhitespace};
use thiserror::Error;

// As many numbers as the longest line has.
const MOST: usize = 4;

// The word that a line begins with.
#[derive(Clone, Copy, Debug, PartialEq, Eq)]
pub enum Verb {
    Rule,
    Task,
    Segment,
    Clear,
    Adopt,
    Open,
    Release,
    Tick,
    Close,
    Read,
    Demand,
    Chart,
}

// The word is no verb.
#[derive(Clone, Copy, Debug, PartialEq, Eq, Error)]
#[error("no word that a line begins with")]
pub struct UnknownVerb;

// A line of a script, understood. No `Call`: some lines make none, `tick` makes many, and what is
// adopted or closed is known to the plan alone.
#[derive(Clone, Copy, Debug, PartialEq, Eq)]
pub enum Line {
    // A number, as the script has it: the adoption refuses what is no rule.
    Rule { rule: u32 },
    Task { task: Task },
    Segment { segment: Segment },
    Clear,
    Adopt,
    Open,
    Release { place: u32 },
    Tick { times: u32 },
    Close,
    Read { object: u32 },
    Demand { place: u32, time: u32 },
    Chart,
}

// Why a text is no line of a script. The words are kept, so that the message can name them.
#[derive(Clone, Copy, Debug, PartialEq, Eq, Error)]
pub enum LineError<'a> {
    #[error("{word:?} is no word that a line begins with")]
    UnknownWord { word: &'a str },
    #[error("{word:?} is not a number from 0 to 4294967295")]
    NoNumber { word: &'a str },
    #[error("too few numbers after \"{verb}\": {found} of {}", .verb.arity())]
    TooFewNumbers { verb: Verb, found: usize },
    #[error("too much after \"{verb}\": {word:?} is left over")]
    LeftOver { verb: Verb, word: &'a str },
}

// Two tables, of reading and of writing: each match covers all verbs by itself, where a table to
// search would need a list of them and the proof that none is left out.
impl FromStr for Verb {
    type Err = UnknownVerb;

    ghost use Rattle.scanner.specs.declared.script.Verb.{Verb};

    ghost from_str_gives = { λ word r. MatchResult r (λ v. word ≡ spelled v) (λ _. (v : Verb) → word ≢ spelled v) };

    fn from_str(word: &str) -> Result<Verb, UnknownVerb> {
        match word {
            "rule" => Ok(Verb::Rule),
            "task" => Ok(Verb::Task),
            "segment" => Ok(Verb::Segment),
            "clear" => Ok(Verb::Clear),
            "adopt" => Ok(Verb::Adopt),
            "open" => Ok(Verb::Open),
            "release" => Ok(Verb::Release),
            "tick" => Ok(Verb::Tick),
            "close" => Ok(Verb::Close),
            "read" => Ok(Verb::Read),
            "demand" => Ok(Verb::Demand),
            "chart" => Ok(Verb::Chart),
            _ => Err(UnknownVerb),
        }
    }
}

impl fmt::Display for Verb {
    ghost output = { λ verb. Some (spelled verb) };

    fn fmt<W: fmt::Write>(&self, f: &mut fmt::Formatter<W>) -> fmt::Result {
        f.write_str(match self {
            Verb::Rule => "rule",
            Verb::Task => "task",
            Verb::Segment => "segment",
            Verb::Clear => "clear",
            Verb::Adopt => "adopt",
            Verb::Open => "open",
            Verb::Release => "release",
            Verb::Tick => "tick",
            Verb::Close => "close",
            Verb::Read => "read",
            Verb::Demand => "demand",
            Verb::Chart => "chart",
        })
    }
}

impl Verb {
    // How many numbers follow it; `tick` alone is one tick.
    pub fn arity(self) -> usize
        ensures value { result ≡ arity_of self }
        ensures most { arity_of self ≤ 4 }
    {
        match self {
            Verb::Clear | Verb::Adopt | Verb::Open | Verb::Close | Verb::Chart => 0,
            Verb::Rule | Verb::Release | Verb::Tick | Verb::Read => 1,
            Verb::Demand => 2,
            Verb::Task | Verb::Segment => 4,
        }
    }
}

// What stands before the comment.
fn before_comment(text: &str) -> &str
    ensures { Uncommented text.now result.now }
{
    // A match: each arm is a case of `Uncommented`.
    match text.split_once('#') {
        Some((before, _comment)) => before,
        None => text,
    }
}

// A number as `parse` takes it: leading zeros and one leading plus are allowed.
fn read_number(word: &str) -> Result<u32, LineError<'_>>
    ensures { MatchResult result (Reads word.now) (Misread word.now) }
{
    word.parse().map_err(|_| LineError::NoNumber { word })
}

// The numbers that follow the verb. One that is too many is not looked at, only named.
fn read_numbers<'a>(
    verb: Verb,
    words: SplitWhitespace<'a>,
) -> Result<ArrayVec<u32, MOST>, LineError<'a>>
    ensures few { IfOk result (λ ns. length ns.items ≤ arity_of verb) }
    ensures read { MatchResult result (λ ns. Numbered (split_whitespace_rest words.entry) ns.items) (WrongAfter verb (split_whitespace_rest words.entry)) }
{
    let mut numbers = ArrayVec::new();
    for word in words {
        if numbers.len() >= verb.arity() {
            return Err(LineError::LeftOver { verb, word });
        }
        numbers.push(read_number(word)?);
    }
    Ok(numbers)
}

// The line of a verb and its numbers, if they are as many as it takes.
fn line_of(verb: Verb, numbers: &[u32]) -> Option<Line>
    ensures { result ≡ line_of verb numbers.now }
{
    match (verb, numbers) {
        (Verb::Rule, &[rule]) => Some(Line::Rule { rule }),
        (Verb::Task, &[period, deadline, first, count]) => Some(Line::Task {
            task: Task {
                period,
                deadline,
                first,
                count,
                rank: 0,
                witness: 0,
            },
        }),
        (Verb::Segment, &[kind, size, object, amount]) => Some(Line::Segment {
            segment: Segment {
                kind,
                size,
                object,
                amount,
            },
        }),
        (Verb::Clear, []) => Some(Line::Clear),
        (Verb::Adopt, []) => Some(Line::Adopt),
        (Verb::Open, []) => Some(Line::Open),
        (Verb::Release, &[place]) => Some(Line::Release { place }),
        (Verb::Tick, []) => Some(Line::Tick { times: 1 }),
        (Verb::Tick, &[times]) => Some(Line::Tick { times }),
        (Verb::Close, []) => Some(Line::Close),
        (Verb::Read, &[object]) => Some(Line::Read { object }),
        (Verb::Demand, &[place, time]) => Some(Line::Demand { place, time }),
        (Verb::Chart, []) => Some(Line::Chart),
        _ => None,
    }
}

// The line that a text says, nothing if it is blank.
pub fn parse_line(text: &str) -> Result<Option<Line>, LineError<'_>>
    ensures { Parsed text.now result }
{
    let mut words = before_comment(text).split_whitespace();
    // No `?`: a text without a word is blank, which is an answer and no error.
    let Some(word) = words.next() else {
        return Ok(None);
    };
    let verb = word.parse().map_err(|_| LineError::UnknownWord { word })?;
    let numbers = read_numbers(verb, words)?;
    // A match: each arm is a case of `Parsed`.
    match line_of(verb, numbers.as_slice()) {
        Some(line) => Ok(Some(line)),
        None => Err(LineError::TooFewNumbers {
            verb,
            found: numbers.len(),
        }),
    }
}
