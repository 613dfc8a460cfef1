// Which task tables keep their deadlines, and what is held of a table that is taken.
#![tactic(auto)]

pub mod adopt;
pub mod demand;
pub mod hyperperiod;
pub mod law;
pub mod length;
pub mod limit;
mod lists;
pub mod lookup;
pub mod measure;
pub mod overrun;
pub mod plan;
pub mod rank;
pub mod refusal;
mod span;
pub mod table;
pub mod task;
mod task_set;
pub mod test;
pub mod witness;
