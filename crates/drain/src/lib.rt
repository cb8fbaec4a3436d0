// The drain of an image in place.
#![tactic(auto)]

pub mod drains;
pub mod events_out;
pub mod move_up;
pub mod shifts;
pub mod weave;
