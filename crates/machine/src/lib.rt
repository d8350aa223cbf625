// What a client and a manager have in common: the calls on a node, each with its row of a table.
#![tactic(auto)]

mod calls;
mod start;
mod step;

pub use calls::Machine;
pub use start::quiet;
pub use step::Step;
