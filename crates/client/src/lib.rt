// A client of a ring: it tells of its links and passes frames on.
#![tactic(auto)]

mod state;

pub use state::{Client, State};
