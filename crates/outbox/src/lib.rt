// What a node sends in one step: frames in four lent places, each with its port and its total.
#![tactic(auto)]

mod message;
mod places;

pub use message::Message;
pub use places::{Outbox, Place};
