ghost use Rattle.std.specs.Prelude.{◌≡◌, ◌+◌, ◌≤◌, length};
ghost use Rattle.admission.specs.Lengths.{owned};

// The most tasks of a table.
pub const MAX_TASKS: usize = 32;

// The most segments of a task, and so the most steps of its jobs.
pub const MAX_SEGMENTS: usize = 8;

// A task as the caller describes it. Rank and witness are written when its table is taken.
// Both records are laid out as in C, so that a slice of them can be handed in from other languages;
// so a kind is a number, a part of a list is `first` and `count`, and 0 stands for no rank and no
// witness.
#[repr(C)]
#[derive(Clone, Copy, Debug, PartialEq, Eq)]
pub struct Task {
    // The least number of ticks between two releases.
    pub period: u32,
    // The number of ticks after a release by which the job must finish.
    pub deadline: u32,
    // Where its segments begin in the list of segments, and how many it owns.
    pub first: u32,
    pub count: u32,
    // 0 is the most urgent.
    pub rank: u32,
    // The least time that shows that the deadline is kept.
    pub witness: u32,
}

impl Task {
    // The segments that it owns.
    pub(crate) fn owned<'a>(&self, segments: &'a [Segment]) -> &'a [Segment]
        requires { self.now.first + self.now.count ≤ length segments.now }
        ensures { result.now ≡ owned segments.now self.now }
    {
        let first = self.first as usize;
        let end = first + self.count as usize;
        &segments[first..end]
    }
}

// A segment of a task's jobs as the caller describes it. Kind 0 computes for `size` ticks and
// ignores object and amount. Kinds 1 and 2 access an object and copy `size` words in each attempt:
// kind 1 puts the amount as the word, kind 2 adds the amount to the reading, held at 4294967295.
#[repr(C)]
#[derive(Clone, Copy, Debug, PartialEq, Eq)]
pub struct Segment {
    pub kind: u32,
    pub size: u32,
    pub object: u32,
    pub amount: u32,
}
