ghost use Rattle.std.specs.Prelude.{◌≡◌, ◌≤◌, [], length};
ghost use Rattle.shelf.specs.Queues.{queue_model};
ghost use Rattle.std.proofs.Common.{rules};

use crate::interface::Shelf;
use arrayvec::ArrayVec;

// How many words may wait.
const ROOM: usize = 64;

// A queue of words, as object 0: how many were missed for want of room, and those that wait,
// oldest first.
#[derive(Debug, PartialEq, Eq, Drop)]
pub struct Queue {
    missed: u32,
    waiting: ArrayVec<u32, ROOM>,
    ghost fits: { length waiting.items ≤ 64 },
}

impl Queue {
    // Nothing missed and nothing waiting.
    pub fn new() -> Queue
        ensures missed { result.missed ≡ 0 }
        ensures waiting { result.waiting.items ≡ [] }
    {
        Queue {
            missed: 0,
            waiting: ArrayVec::new(),
        }
    }
}

// By hand: the ghost field keeps it from being derived.
impl Default for Queue {
    ghost is_default = { λ queue. (queue.missed ≡ 0) × (queue.waiting.items ≡ []) };

    fn default() -> Queue {
        Queue::new()
    }
}

impl Shelf for Queue {
    ghost model = { λ queue. queue_model queue.missed queue.waiting.items };

    ghost numbered = { Prim.search rules };

    fn has(&self, object: u32) -> bool {
        object == 0
    }

    fn look(&self, object: u32) -> u32 {
        if object == 0 {
            self.waiting.len() as u32
        } else {
            0
        }
    }

    fn commit(&mut self, object: u32, reading: u32, word: u32) -> bool {
        if object != 0 || reading != self.waiting.len() as u32 {
            return false;
        }
        if word == 0 {
            let _ = self.waiting.pop_at(0);
        } else if self.waiting.try_push(word).is_err() {
            self.missed = self.missed.saturating_add(1);
        }
        true
    }
}
