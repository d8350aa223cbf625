// Octets and frames as text.
#![tactic(auto)]

mod fields;
mod octets;

pub use fields::FrameText;
pub use octets::Octets;
