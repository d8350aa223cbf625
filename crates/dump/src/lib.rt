// What becomes of the lines of a dump, what is counted of them, and what the search for clashes is told.
#![tactic(auto)]

mod seen;
mod tally;
mod verdict;

pub use seen::sighting;
pub use tally::Tally;
pub use verdict::{Verdict, judge};
