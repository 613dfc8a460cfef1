ghost use Rattle.std.specs.Prelude.{◌≡◌, ◌≤◌, length};
ghost use Rattle.admission.specs.Lengths.{owned};
ghost use Rattle.admission.specs.Limits.{EachSegment, TaskLimits, TableLimits};

use crate::task::{Segment, Task};

// The segments of one task, within the limits.
#[derive(Clone, Copy)]
pub(crate) struct Owned<'a> {
    pub(crate) segments: &'a [Segment],
    ghost few: { length segments.now ≤ 8 },
    ghost limits: { EachSegment segments.now },
}

// The caller's lists, within the limits.
#[derive(Clone, Copy)]
pub(crate) struct Lists<'a> {
    pub(crate) tasks: &'a [Task],
    pub(crate) segments: &'a [Segment],
    ghost few: { length tasks.now ≤ 32 },
    ghost limits: { TableLimits segments.now tasks.now },
}

impl Lists<'_> {
    // The segments of a task of the list.
    pub(crate) fn owned(&self, task: &Task) -> Owned<'_>
        requires { TaskLimits self.now.segments.now task.now }
        ensures { result.segments.now ≡ owned self.now.segments.now task.now }
    {
        Owned {
            segments: task.owned(self.segments),
        }
    }
}
