ghost use Rattle.std.specs.Prelude.{◌≡◌, ℕ, ◌≤◌, map, length, is_ok, IfOk, MatchResult, nat_le, nat_lt};
ghost use Rattle.controller.specs.Machines.{machine, closed};
ghost use Rattle.runs.specs.Entries.{entry_of, goods, good_in};
ghost use Rattle.runs.specs.Ledger.{start};
ghost use Rattle.runs.specs.Laws.{Law, after, written_all, RunLaw};

use crate::calls::{Answer, Call};
use crate::room::Room;
use crate::session::Session;
use controller::controller::Controller;
use controller::token::BatchToken;
use shelf::interface::Shelf;

// What a run leaves: the controller, an answer for each call, and the tokens still held, oldest
// first.
pub struct Ran<S> {
    pub controller: Controller<S>,
    pub answers: Vec<Answer>,
    pub tokens: Vec<BatchToken>,
}

// What was handed in for a run that the room is too small for.
pub struct TooLong<S> {
    pub shelf: S,
    pub room: Room,
}

// All calls, in order, in room that was reserved for them.
#[tactic(auto, using(crate::proofs::Loops::story_new, std::proofs::lemmas::List::nil_from_length))]
fn run_reserved<S: Shelf>(shelf: S, calls: &mut [Call], room: Room) -> Ran<S>
    requires { length calls.old ≤ room.calls }
    ensures { RunLaw (S.Shelf.model shelf) (map entry_of calls.old) (map entry_of calls.new) result.answers.items (machine (S.Shelf.model result.controller.shelf) result.controller.core) (goods result.tokens.items) }
{
    let Room {
        calls: _,
        mut answers,
        tokens,
    } = room;
    let mut session = Session::new(shelf, tokens);
    for call in calls.iter_mut() {
        answers.push_reserved(session.perform(call));
    }
    let Session { controller, tokens } = session;
    Ran {
        controller,
        answers,
        tokens,
    }
}

// All calls, in order, on a factory-new controller, or none if they are more than the room is for.
pub fn run<S: Shelf>(shelf: S, calls: &mut [Call], room: Room) -> Result<Ran<S>, TooLong<S>>
    ensures all { is_ok result ≡ nat_le (length calls.old) room.calls }
    ensures law { MatchResult result (λ ran. Law (start (S.Shelf.model shelf)) (map entry_of calls.old) ran.answers.items) (λ no. no ≡ record { shelf = shelf; room = room }) }
    ensures lists { MatchResult result (λ ran. map entry_of calls.new ≡ written_all (start (S.Shelf.model shelf)) (map entry_of calls.old) ran.answers.items) (λ no. calls.new ≡ calls.old) }
    ensures contents { IfOk result (λ ran. S.Shelf.model ran.controller.shelf ≡ (after (start (S.Shelf.model shelf)) (map entry_of calls.old) (ran.answers.items)).model) }
    ensures held { IfOk result (λ ran. goods ran.tokens.items ≡ (after (start (S.Shelf.model shelf)) (map entry_of calls.old) (ran.answers.items)).held) }
    ensures whole { IfOk result (λ ran. RunLaw (S.Shelf.model shelf) (map entry_of calls.old) (map entry_of calls.new) ran.answers.items (machine (S.Shelf.model ran.controller.shelf) ran.controller.core) (goods ran.tokens.items)) }
{
    if calls.len() > room.calls {
        return Err(TooLong { shelf, room });
    }
    Ok(run_reserved(shelf, calls, room))
}

impl<S: Shelf> Ran<S> {
    // Hands in every token that is left, newest first, and ends the run.
    pub fn finish(self) -> (Controller<S>, Vec<Answer>)
        ensures answers { result.1 ≡ self.answers }
        ensures contents { S.Shelf.model result.0.shelf ≡ S.Shelf.model self.controller.shelf }
        ensures machine { machine (S.Shelf.model result.0.shelf) result.0.core ≡ closed (machine (S.Shelf.model self.controller.shelf) self.controller.core) (nat_lt 0 (good_in (goods self.tokens.items))) }
    {
        let Ran {
            controller,
            answers,
            tokens,
        } = self;
        let session = Session { controller, tokens };
        (session.finish(), answers)
    }
}
