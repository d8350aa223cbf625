// The frame store: places for frames, a queue for each direction of each link, and frames in hand.
#![tactic(auto)]

mod chains;
mod frame;
pub mod hand;
pub mod store;
