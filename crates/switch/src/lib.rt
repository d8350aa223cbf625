// A switch by its meaning: the states of its two ring ports, and the port at which each known address was heard.
#![tactic(auto)]

mod address;
mod port;
mod switching;

pub use address::Address;
pub use port::{Port, PortState};
pub use switching::Switch;
