// What a node is fitted with: intervals, counts, priority, domain and address, always within their limits.
#![tactic(auto)]

mod draft;
mod values;

pub use draft::Draft;
pub use values::Settings;
