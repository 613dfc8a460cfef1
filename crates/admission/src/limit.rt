ghost use Rattle.std.specs.Prelude.{◌≡◌, ◌≤◌, length, IfOk, MatchResult};
ghost use Rattle.admission.specs.Verdicts.{has_fit_times, has_fit_range, has_fit_size, has_object, segments_no, task_no, tasks_no, unless};

use crate::lists::Lists;
use crate::plan::Step;
use crate::refusal::Refusal;
use crate::task::{MAX_SEGMENTS, Segment, Task};
use shelf::interface::Shelf;

pub(crate) const MAX_PERIOD: u32 = 1_000_000;

const MAX_COMPUTING: u32 = 100_000;

const MAX_WORDS: u32 = 255;

fn times_fit(task: &Task) -> bool
    ensures { result ≡ has_fit_times task.now }
{
    1 <= task.period
        && task.period <= MAX_PERIOD
        && 1 <= task.deadline
        && task.deadline <= task.period
}

// The lists come as two slices, here and below: nothing is known of them before they are `Lists`.
fn range_fits(segments: &[Segment], task: &Task) -> bool
    ensures { result ≡ has_fit_range segments.now task.now }
{
    1 <= task.count
        && task.count as usize <= MAX_SEGMENTS
        && task.first as usize + task.count as usize <= segments.len()
}

// Whether its kind is one of the three, and its size within the limits of the kind. By the number:
// this is the check of the number itself.
fn size_fits(segment: &Segment) -> bool
    ensures { result ≡ has_fit_size segment.now }
{
    match segment.kind {
        0 => 1 <= segment.size && segment.size <= MAX_COMPUTING,
        1 | 2 => segment.size <= MAX_WORDS,
        _ => false,
    }
}

fn object_exists<S: Shelf>(shelf: &S, segment: &Segment) -> bool
    ensures { result ≡ has_object (S.Shelf.model shelf.now).rules segment.now }
{
    match Step::from(*segment) {
        Step::Compute { .. } => true,
        Step::Access { object, .. } => shelf.has(object),
    }
}

// Whether the segments of the task at a place are within the limits.
fn check_segments<S: Shelf>(shelf: &S, place: u32, segments: &[Segment]) -> Result<(), Refusal>
    ensures { result ≡ unless (segments_no (S.Shelf.model shelf.now).rules place segments.now) tt }
{
    for segment in segments {
        if !size_fits(segment) {
            return Err(Refusal::KindOrSize { place });
        }
        if !object_exists(shelf, segment) {
            return Err(Refusal::AccessObject { place });
        }
    }
    Ok(())
}

// Whether the task at a place is within the limits.
fn check_task<S: Shelf>(
    shelf: &S,
    segments: &[Segment],
    place: u32,
    task: &Task,
) -> Result<(), Refusal>
    ensures { result ≡ unless (task_no (S.Shelf.model shelf.now).rules segments.now place task.now) tt }
{
    if !times_fit(task) {
        return Err(Refusal::PeriodOrDeadline { place });
    }
    if !range_fits(segments, task) {
        return Err(Refusal::SegmentRange { place });
    }
    check_segments(shelf, place, task.owned(segments))
}

// The lists, if all tasks are within the limits.
pub(crate) fn check_lists<'a, S: Shelf>(
    shelf: &S,
    segments: &'a [Segment],
    tasks: &'a [Task],
) -> Result<Lists<'a>, Refusal>
    requires { length tasks.now ≤ 32 }
    ensures lists { IfOk result (λ lists. (lists.segments.now ≡ segments.now) × (lists.tasks.now ≡ tasks.now)) }
    ensures answer { MatchResult result (λ _. tasks_no (S.Shelf.model shelf.now).rules segments.now 0 tasks.now ≡ None) (λ e. tasks_no (S.Shelf.model shelf.now).rules segments.now 0 tasks.now ≡ Some e) }
{
    for (place, task) in tasks.iter().enumerate() {
        check_task(shelf, segments, place as u32, task)?;
    }
    Ok(Lists { tasks, segments })
}
