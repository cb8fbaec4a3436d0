// The six calls on an image, and the one that tells who waits.
#![tactic(auto)]

pub mod accepted_access;
pub mod accepted_input;
pub mod reset_drain;
pub mod tested_access;
pub mod tested_input;
pub mod who_waits;
