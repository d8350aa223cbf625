// The words of a line of commands, and the decimal numbers among them.
#![tactic(auto)]

mod line;
mod number;

pub use line::Words;
pub use number::decimal;
