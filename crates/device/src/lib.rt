// The device as the Rust has it: its state, its map, its window, and the decisions that both the port and the calls in place make.
#![tactic(auto)]

pub mod decide;
pub mod map;
pub mod map_low;
pub mod state;
pub mod window;
