// What the program writes.
use crate::records::Mismatch;

// What cannot be written is not told.
pub fn text(rt: &impl Print, bytes: &[u8]) {
    let _ = rt.write_all(bytes);
}

// How many comparisons of a kind passed, and how many failed.
pub fn counts(rt: &impl Print, passed: u64, failed: u64) {
    let _ = println!(rt; "{passed} passed, {failed} failed");
}

// A record that does not agree, counted from the first behind the header.
pub fn failure(rt: &impl Print, at: u64, mismatch: Mismatch) {
    let _ = println!(rt; "FAILED: record {at}: {mismatch}");
}
