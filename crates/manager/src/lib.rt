// The manager of a ring: it tests the ring, opens it where it is broken and closes it where it is whole.
#![tactic(auto)]

mod state;

pub use state::{Manager, State};
