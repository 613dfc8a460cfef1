ghost use Rattle.std.specs.Prelude.{◌≡◌, ◌<◌, MatchResult, vec_len, vec_capacity, nat_lt};
ghost use Rattle.controller.specs.Machines.{machine, new_machine, closed};
ghost use Rattle.runs.specs.declared.calls.Answer.TheVariants.{Refused};
ghost use Rattle.runs.specs.Entries.{entry_of, opens, closes, good_in, answered, stepped, held_after, lists_after};
ghost use Rattle.runs.specs.Sessions.{machine_of, held_in, Grown};

use crate::calls::{Answer, Call};
use admission::refusal::Refusal;
use controller::controller::Controller;
use controller::token::BatchToken;
use shelf::interface::Shelf;

// A controller, and the tokens that it gave out and that are still held, oldest first.
// No impl Model: a machine holds a function, the rules of its objects, and a model's value cannot.
pub(crate) struct Session<S> {
    pub(crate) controller: Controller<S>,
    pub(crate) tokens: Vec<BatchToken>,
}

// What a call answered, as one type.
fn answer_of<T, F: FnOnce(T) -> Answer>(outcome: Result<T, Refusal>, granted: F) -> Answer
    requires { F.IsAlwaysCallable granted }
    ensures { MatchResult outcome (λ x. F.post granted x result) (λ e. result ≡ Refused e) }
{
    outcome.map_or_else(|refusal| Answer::Refused { refusal }, granted)
}

impl<S: Shelf> Session<S> {
    pub(crate) fn new(shelf: S, tokens: Vec<BatchToken>) -> Session<S>
        ensures machine { machine_of S.Shelf.model result ≡ new_machine (S.Shelf.model shelf) }
        ensures tokens { result.tokens ≡ tokens }
    {
        Session {
            controller: Controller::new(shelf),
            tokens,
        }
    }

    // Opens a batch, and keeps the token, good or void. `room` is said by `open`, `close` and
    // `perform`: it compares two moments, so no field can hold it.
    fn open(&mut self) -> Answer
        requires { vec_len self.old.tokens < vec_capacity self.old.tokens }
        ensures answer { result ≡ answered (machine_of S.Shelf.model self.old) (held_in self.old) opens }
        ensures machine { machine_of S.Shelf.model self.new ≡ stepped (machine_of S.Shelf.model self.old) (held_in self.old) opens }
        ensures held { held_in self.new ≡ held_after (machine_of S.Shelf.model self.old) (held_in self.old) opens }
        ensures room { Grown self.old self.new }
    {
        let (opened, token) = self.controller.open();
        self.tokens.push_reserved(token);
        answer_of(opened, |()| Answer::Opened)
    }

    // Hands in a token that is held.
    #[tactic(auto, using(crate::proofs::Tokens::token_gone))]
    fn close(&mut self, which: usize) -> Answer
        ensures answer { result ≡ answered (machine_of S.Shelf.model self.old) (held_in self.old) (closes which) }
        ensures machine { machine_of S.Shelf.model self.new ≡ stepped (machine_of S.Shelf.model self.old) (held_in self.old) (closes which) }
        ensures held { held_in self.new ≡ held_after (machine_of S.Shelf.model self.old) (held_in self.old) (closes which) }
        ensures room { Grown self.old self.new }
    {
        if which >= self.tokens.len() {
            return Answer::NoToken;
        }
        let token = self.tokens.remove(which);
        answer_of(self.controller.close(token), |sums| Answer::Closed { sums })
    }

    // One call of a list.
    pub(crate) fn perform(&mut self, call: &mut Call) -> Answer
        requires { vec_len self.old.tokens < vec_capacity self.old.tokens }
        ensures answer { result ≡ answered (machine_of S.Shelf.model self.old) (held_in self.old) (entry_of call.old) }
        ensures machine { machine_of S.Shelf.model self.new ≡ stepped (machine_of S.Shelf.model self.old) (held_in self.old) (entry_of call.old) }
        ensures held { held_in self.new ≡ held_after (machine_of S.Shelf.model self.old) (held_in self.old) (entry_of call.old) }
        ensures lists { entry_of call.new ≡ lists_after (machine_of S.Shelf.model self.old) (entry_of call.old) }
        ensures room { Grown self.old self.new }
    {
        match call {
            Call::Adopt {
                rule,
                tasks,
                segments,
            } => answer_of(self.controller.adopt(*rule, tasks, segments), |answer| {
                Answer::Taken { answer }
            }),
            Call::Open => self.open(),
            Call::Release { place } => answer_of(self.controller.release(*place), |deadline| {
                Answer::Released { deadline }
            }),
            Call::Tick => answer_of(self.controller.tick(), |tick| Answer::Worked { tick }),
            Call::Close { which } => self.close(*which),
            Call::Read { object } => answer_of(self.controller.read(*object), |reading| {
                Answer::Reading { reading }
            }),
            Call::Demand { place, t } => {
                answer_of(self.controller.demand(*place, *t), |(work, charge)| {
                    Answer::Demanded { work, charge }
                })
            }
        }
    }

    // Hands in every token that is left, newest first; what close answers is of no more use.
    #[tactic(auto, using(crate::proofs::Tokens::finish_more))]
    pub(crate) fn finish(self) -> Controller<S>
        ensures { machine (S.Shelf.model result.shelf) result.core ≡ closed (machine_of S.Shelf.model self) (nat_lt 0 (good_in (held_in self))) }
    {
        let Session {
            mut controller,
            mut tokens,
        } = self;
        while let Some(token) = tokens.pop() {
            let _ = controller.close(token);
        }
        tokens.destroy_empty();
        controller
    }
}
