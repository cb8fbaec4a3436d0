// The state stored as an image.
#![tactic(auto)]

pub mod pairs;
pub mod reset_parts;
pub mod save_parts;
pub mod save_reset;
pub mod save_state;
pub mod save_words;
