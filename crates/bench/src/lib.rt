// The work that is timed against the peer. Each function makes a whole loop of calls, so that the
// crossing into it does not count.
#![tactic(auto)]

use admission::refusal::Refusal;
use admission::task::{MAX_TASKS, Segment, Task};
use controller::controller::Controller;
use controller::job::Ticked;
use shelf::cell::Cell;
use shelf::pair::Pair;
use shelf::queue::Queue;
use std::mem::size_of;

fn new_controller() -> Controller<Pair<Cell, Queue>> {
    Controller::new(Pair::new(Cell::new(0), Queue::new()))
}

// How much memory a controller takes. It has no other: none of its calls is handed an allocator.
#[unsafe(no_mangle)]
pub extern "C" fn bench_controller_bytes() -> usize {
    size_of::<Controller<Pair<Cell, Queue>>>()
}

// Adopts the same table so many times. The sum of the answers shows that the work was done, and
// that it was the same. The rule is a number, here and in `bench_ticks`: it comes over the C
// interface.
#[unsafe(no_mangle)]
pub extern "C" fn bench_adoptions(
    rule: u32,
    tasks: &mut [Task],
    segments: &[Segment],
    rounds: u32,
) -> u64 {
    let mut controller = new_controller();
    let mut sum: u64 = 0;
    // A loop: in a chain the closure would hold the controller and the records for writing.
    for _ in 0..rounds {
        let answer = controller
            .adopt(rule, tasks, segments)
            .unwrap_or_else(|refusal| refusal.number());
        sum = sum.wrapping_add(answer as u64);
    }
    sum
}

// One more tick in a sum over all answers.
fn with_tick(sum: u64, tick: Result<Ticked, Refusal>) -> u64 {
    let told = tick.map_or_else(
        |refusal| refusal.number() as u64,
        |tick| tick.event.number() as u64 + tick.event.word() as u64 + tick.place as u64,
    );
    sum.wrapping_mul(31).wrapping_add(told)
}

// A batch of so many ticks. In each period every place of the table is released once, the last
// first, one in a tick, so that jobs preempt one another.
#[unsafe(no_mangle)]
pub extern "C" fn bench_ticks(
    rule: u32,
    tasks: &mut [Task],
    segments: &[Segment],
    period: u32,
    ticks: u32,
) -> u64 {
    let mut controller = new_controller();
    let _ = controller.adopt(rule, tasks, segments);
    let (_opened, token) = controller.open();
    let places = tasks.len().min(MAX_TASKS) as u32;
    // Counters, not the remainder by the period: a division in each tick would be timed too.
    let mut due = 0;
    let mut left: u32 = 0;
    let mut sum: u64 = 0;
    for _ in 0..ticks {
        if left == 0 {
            left = period;
            due = places;
        }
        left = left.saturating_sub(1);
        if due > 0 {
            due -= 1;
            let _ = controller.release(due);
        }
        sum = with_tick(sum, controller.tick());
    }
    controller.close(token).map_or_else(
        |refusal| refusal.number() as u64,
        |sums| sum.wrapping_add(sums.retries as u64),
    )
}
