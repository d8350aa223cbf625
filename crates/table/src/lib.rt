// The table switch: it knows up to 64 addresses.
#![tactic(auto)]

mod entry;
mod table;

pub use table::TableSwitch;
