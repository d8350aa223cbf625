// A node with its switch: it is fitted, then it runs, then it is stopped. Only a running node takes events.
#![tactic(auto)]

mod running;

pub use running::{Fitted, Running, Stopped};
