#![tactic(auto)]

mod chart;
mod fault;
mod plan;
mod print;
mod report;
mod script;

use crate::fault::Fault;
use crate::plan::Plan;
use crate::report::write_report;
use crate::script::parse_line;
use anyhow::anyhow;
use runs::room::Room;
use runs::run::{TooLong, run};
use shelf::cell::Cell;
use shelf::pair::Pair;
use shelf::queue::Queue;
use std::io;
use std::io::{BufRead, BufReader, BufWriter, Write};
use std::process::ExitCode;

// Adds what a line says to the plan.
fn add_line<'a>(plan: &mut Plan, read: &'a io::Result<String>) -> Result<(), Fault<'a>> {
    let text = read.as_ref()?;
    if let Some(line) = parse_line(text.as_str())? {
        plan.add(line)?;
    }
    Ok(())
}

// Reads the script line by line, until it ends or a line is bad; then says what is wrong with that.
// One result in the other: a bad line must not lose what came before it.
fn read_script(rt: &HostRuntime, plan: &mut Plan) -> anyhow::Result<Result<(), String>> {
    let heap = rt.alloc();
    let lines = BufReader::new(heap, rt.stdin())?.lines(heap);
    for (number, read) in (1..=u64::MAX).zip(lines) {
        if let Err(fault) = add_line(plan, &read) {
            return Ok(Err(format!(in heap; "line {number}: {fault}")?));
        }
    }
    Ok(Ok(()))
}

// Makes the calls, and prints what they answer.
fn perform<W: Write>(rt: &HostRuntime, out: &mut W, plan: &mut Plan) -> anyhow::Result<()> {
    let room = Room::new(rt.alloc(), plan.calls.len())?;
    let shelf = Pair::new(Cell::new(0), Queue::new());
    match run(shelf, plan.calls.as_mut_slice(), room) {
        Ok(ran) => {
            let (_controller, answers) = ran.finish();
            write_report(
                out,
                plan.calls.as_slice(),
                answers.as_slice(),
                plan.charts.as_slice(),
            )?;
            out.flush()?;
            Ok(())
        }
        Err(TooLong { shelf: _, room }) => {
            room.give_back();
            Err(anyhow!("the room is too small"))
        }
    }
}

// Follows the script up to its end, or up to a line that is bad. That is no failure of the program,
// which first prints all that came before it: so one result lies in the other.
fn follow<W: Write>(rt: &HostRuntime, out: &mut W) -> anyhow::Result<Result<(), String>> {
    let mut plan = Plan::new(rt.alloc());
    let read = read_script(rt, &mut plan)?;
    perform(rt, out, &mut plan)?;
    Ok(read)
}

fn main(rt: HostRuntime) -> anyhow::Result<ExitCode> {
    let mut out = BufWriter::new(rt.alloc(), rt.stdout())?;
    match follow(&rt, &mut out)? {
        Ok(()) => Ok(ExitCode::SUCCESS),
        Err(bad) => {
            eprintln!(rt; "{bad}")?;
            Ok(ExitCode::FAILURE)
        }
    }
}
