// Shelves of shared objects: the interface, and the three shelves that are built.
#![tactic(auto)]

pub mod cell;
pub mod interface;
pub mod pair;
pub mod queue;
