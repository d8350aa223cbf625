// The head of a frame, and the walk over its elements. Both show parts of the frame's own octets.
#![tactic(auto)]

mod head;
mod part;
mod walk;

pub use head::Head;
pub use part::Part;
pub use walk::{CommonContent, Element, Elements, LinkContent, TestContent, TopologyChangeContent};
