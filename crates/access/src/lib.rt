// Reads and writes of what stands at an offset, in place.
#![tactic(auto)]

pub mod cells;
pub mod narrow;
pub mod wide;
