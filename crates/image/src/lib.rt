// The boundary's bytes: the form of the saved image.
#![tactic(auto)]

pub mod bad_bytes;
pub mod bodies;
pub mod faults;
pub mod form;
pub mod head;
pub mod quick;
pub mod unused;
