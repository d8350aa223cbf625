// Finds the frames in which one sender used one sequence number on two kinds of frame.
#![tactic(auto)]

pub mod clashes;
pub mod history;
pub mod noted;
pub mod sighting;

pub use clashes::Clashes;
pub use history::History;
pub use noted::Noted;
pub use sighting::Sighting;
