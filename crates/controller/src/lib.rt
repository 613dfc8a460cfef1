// The controller: it owns a shelf of shared objects, takes task tables, and runs their jobs tick by tick.
#![tactic(auto)]

pub mod advance;
pub mod batch;
pub mod controller;
pub mod job;
pub mod tally;
pub mod token;
pub mod urgency;
