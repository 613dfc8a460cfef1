ghost use Rattle.std.specs.Prelude.{◌≡◌, ℕ, ◌≤◌, IfOk, vec_len, vec_capacity};

use crate::calls::Answer;
use controller::token::BatchToken;
use std::alloc::{AllocError, Global};

// Memory for a run of so many calls, set aside before the first of them: each call answers once,
// and brings at most one token.
pub struct Room {
    // The number that was asked for: a vector may have room for more.
    pub(crate) calls: usize,
    pub(crate) answers: Vec<Answer>,
    pub(crate) tokens: Vec<BatchToken>,
    ghost empty: { (vec_len answers ≡ 0) × (vec_len tokens ≡ 0) },
    ghost wide: { (calls ≤ vec_capacity answers) × (calls ≤ vec_capacity tokens) },
}

impl Room {
    pub fn new(heap: Global, calls: usize) -> Result<Room, AllocError>
        ensures { IfOk result (λ room. room.calls ≡ calls) }
    {
        let answers = Vec::with_capacity(heap, calls)?;
        let tokens = Vec::with_capacity(heap, calls)?;
        Ok(Room {
            calls,
            answers,
            tokens,
        })
    }

    pub fn give_back(self) {
        let Room {
            calls: _,
            answers: _,
            tokens,
        } = self;
        tokens.destroy_empty();
    }
}
