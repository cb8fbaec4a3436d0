// Replays the recorded answers of the published Rust, data/answers.bin, through the six exported calls. The form of that file is told in
// tools/harness/records.rs. The last line written is 'N passed, M failed'.
#![tactic(auto)]

mod each;
mod records;
mod replay_call;
mod say;

ghost use Rattle.std.specs.Prelude.{◌≡◌, ◌+◌, ◌^◌, ◌<◌, ◌≤◌, length, IfSome};

use crate::records::{Held, Kind, Mismatch};
use bits::bytes::number;
use std::fs::File;
use std::io::Read;

// Behind the record of an image, and of a whole buffer, stand five with its bytes.
fn has_bytes(kind: u8) -> bool {
    matches!(Kind::try_from(kind), Ok(Kind::Image | Kind::Whole))
}

// How many records stand together.
fn together(kind: u8) -> u64
    ensures { (1 ≤ result) × (result ≤ 6) }
{
    if has_bytes(kind) { 6 } else { 1 }
}

// How many comparisons passed and how many failed: of each kind, and at place 0 of all. Two arrays, since each is counted by itself.
#[derive(Clone, Copy)]
struct Counts {
    passed: [u64; 10],
    failed: [u64; 10],
}

// One comparison more.
fn count(counts: &mut [u64; 10], kind: u8) {
    counts[0] = counts[0].saturating_add(1);
    let k = usize::from(kind);
    if k < 10 {
        counts[k] = counts[k].saturating_add(1);
    }
}

// A record counts, unless there was nothing to compare.
fn tally(rt: &impl Print, counts: &mut Counts, at: u64, kind: u8, verdict: Result<Held, Mismatch>) {
    match verdict {
        Ok(Held::Agrees) => count(&mut counts.passed, kind),
        Ok(Held::Nothing) => {}
        Err(mismatch) => {
            say::failure(rt, at, mismatch);
            count(&mut counts.failed, kind);
        }
    }
}

// Reads until the buffer is full, the file ends or a read fails, and hands back how many bytes stand at the front.
fn read_full(file: &mut impl Read, buf: &mut [u8]) -> usize
    ensures { result ≤ length buf.new }
{
    let mut done = 0;
    // A while and no for: a step is as long as what was read.
    while done < buf.len() {
        let n = file.read(&mut buf[done..]).unwrap_or(0);
        if n == 0 {
            break;
        }
        done += n;
    }
    done
}

// The next record, and the five that may stand behind it. It is false where the file ends in them.
fn read_record(file: &mut impl Read, noted: &mut [u8; 64], bytes: &mut [u8; 320]) -> bool {
    let n = read_full(file, noted);
    if n < 64 {
        return false;
    }
    if !has_bytes(noted[0]) {
        return true;
    }
    let m = read_full(file, bytes);
    m == bytes.len()
}

// The next record, number `at`; and the number of the record behind it, or none where the file ends.
fn replay_next(
    rt: &impl Print,
    file: &mut impl Read,
    at: u64,
    image: &mut [u8; 300],
    counts: &mut Counts,
) -> Option<u64>
    requires { at < 2 ^ 32 }
    ensures { IfSome result (λ behind. at < behind) }
{
    let mut noted = [0u8; 64];
    let mut bytes = [0u8; 320];
    if !read_record(file, &mut noted, &mut bytes) {
        tally(rt, counts, at, 0, Err(Mismatch::Cut));
        return None;
    }
    let kind = noted[0];
    let verdict = each::replay_record(&noted, &bytes, image);
    tally(rt, counts, at, kind, verdict);
    Some(at + together(kind))
}

fn replay_all(rt: &impl Print, file: &mut impl Read, records: u64) -> Counts
    requires { records < 2 ^ 32 }
{
    let mut image = [0u8; 300];
    let mut counts = Counts {
        passed: [0u64; 10],
        failed: [0u64; 10],
    };
    let mut at = 0;
    // A while and no for: an image has five records more behind its own.
    while at < records {
        let Some(behind) = replay_next(rt, file, at, &mut image, &mut counts) else {
            break;
        };
        at = behind;
    }
    counts
}

// How many calls were made and compared.
fn calls(counts: &[u64; 10]) -> u64 {
    let mut all = 0u64;
    for n in &counts[1..7] {
        all = all.saturating_add(*n);
    }
    all
}

// The file ends where its header says.
fn check_end(rt: &impl Print, file: &mut impl Read, counts: &mut Counts) {
    let mut more = [0u8; 1];
    if read_full(file, &mut more) != 0 {
        say::text(rt, b"FAILED: the file does not end where its header says\n");
        count(&mut counts.failed, 0);
    }
}

// As many calls were made as the header tells of.
fn check_calls(rt: &impl Print, wanted: u64, counts: &mut Counts) {
    if calls(&counts.passed).saturating_add(calls(&counts.failed)) != wanted {
        say::text(rt, b"FAILED: the header tells of another number of calls\n");
        count(&mut counts.failed, 0);
    }
}

fn say_kind(rt: &impl Print, name: &[u8], kind: usize, counts: &Counts)
    requires { kind < 10 }
{
    say::text(rt, name);
    say::counts(rt, counts.passed[kind], counts.failed[kind]);
}

fn say_kinds(rt: &impl Print, counts: &Counts) {
    say_kind(rt, b"reset: ", 1, counts);
    say_kind(rt, b"read: ", 2, counts);
    say_kind(rt, b"write: ", 3, counts);
    say_kind(rt, b"level: ", 4, counts);
    say_kind(rt, b"poll: ", 5, counts);
    say_kind(rt, b"drain: ", 6, counts);
    say_kind(rt, b"whole images: ", 8, counts);
    say_kind(rt, b"", 0, counts);
}

// The header's form is known: it begins with the letters of this form.
fn is_known(header: &[u8; 64]) -> bool {
    &header[0..8] == b"PCHPICA1".as_slice()
}

fn replay_file(rt: &impl Print, file: &mut impl Read, header: &[u8; 64]) {
    let mut counts = replay_all(rt, file, number(&header[8..12]));
    check_end(rt, file, &mut counts);
    check_calls(rt, number(&header[12..16]), &mut counts);
    say_kinds(rt, &counts);
}

fn main(rt: HostRuntime) {
    if let Ok(mut file) = File::open(&rt, "answers.bin") {
        let mut header = [0u8; 64];
        let n = read_full(&mut file, &mut header);
        if n == 64 && is_known(&header) {
            return replay_file(&rt, &mut file, &header);
        }
    }
    say::text(
        &rt,
        b"answers.bin is no file of recorded answers\n0 passed, 1 failed\n",
    );
}
