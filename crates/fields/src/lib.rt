// The fields of an image, read and written in place.
#![tactic(auto)]

pub mod entries;
pub mod event_numbers;
pub mod number_bytes;
pub mod ring;
pub mod words;
