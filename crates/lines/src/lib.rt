// What moves the lines of an image in place.
#![tactic(auto)]

pub mod enter_leave;
pub mod events;
pub mod halves;
pub mod masking;
pub mod service;
