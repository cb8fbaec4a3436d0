// The ledger: the numbers of a sheet or a tally, and the pass over a trace's records that keeps them. What is kept of the device goes by value; what moves it
// brings its marks to the numbers.
#![tactic(auto)]

pub mod cells;
pub mod follow;
pub mod totals;
pub mod watch;
pub mod watch_record;
pub mod watch_write;
