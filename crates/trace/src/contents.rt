// The contents of a trace tested: blocks back to back, none empty, and nothing else.
ghost use Rattle.std.specs.Prelude.{◌≡◌};
ghost use Rattle.trace.specs.contents.Found.{contents_as};

use crate::blocks::{count_records, two_at};
use crate::record_bytes::LENGTH;

const MOST_BLOCKS: usize = 64;

// The records of a trace: the place of the first, and how many there are.
#[derive(Clone, Copy)]
pub struct Records {
    pub first: usize,
    pub count: usize,
}

// Of good contents.
pub fn contents_of(trace: &[u8]) -> Option<Records>
    ensures { result ≡ contents_as trace.now }
{
    if trace.len() < 2 {
        return None;
    }
    let blocks = two_at(trace, 0);
    if blocks == 0 {
        return None;
    }
    if blocks > MOST_BLOCKS {
        return None;
    }
    let first = 2 + 4 * blocks;
    if trace.len() < first {
        return None;
    }
    let count = count_records(trace, blocks)?;
    if trace.len() != first + LENGTH * count {
        return None;
    }
    Some(Records { first, count })
}
