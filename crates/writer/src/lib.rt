// Writes MRP frames into octets that are lent.
#![tactic(auto)]

mod encoder;
mod pen;

pub use encoder::write;
use frame::Frame;

// A frame to be written: it has its addresses and its domain itself.
pub type Outgoing = Frame<[u8; 6], [u8; 16]>;
