// The end of a day's sheet, in the bytes lent for it: of each input whether its wait is open, and then its row joined to the total.
ghost use Rattle.std.specs.Prelude.{◌≡◌, ◌+◌, ◌*◌, ◌%◌, ◌^◌, ◌<◌, ◌≤◌, length};
ghost use Rattle.passes.specs.tallies.Grid.{cell_bytes, cell_place, Roomy, Becomes, put};
ghost use Rattle.passes.specs.Finish.{shut, joined, row_joined, finished};
ghost use Rattle.ledger.specs.totals.Zeros.{FoundZero};

use crate::cells::{GREATEST, OPEN, cell, place, put_cell};
use bits::bytes::word_at;

const INPUTS: usize = 64;

pub const COLUMNS: usize = 10;

// The row of the total.
pub const TOTAL: usize = 64;

// A wait that is not over is open.
fn close(sheet: &mut [u8], wide: bool, n: usize)
    requires { Roomy wide sheet.old × (n < 64) }
    ensures { Becomes wide sheet.old sheet.new (λ f. shut f n) }
{
    let since = cell(sheet, wide, n, OPEN);
    put_cell(sheet, wide, n, OPEN, u64::from(since != 0));
}

// The greater wait, and of all else the sum.
fn join_with(column: usize, total: u64, x: u64) -> u64
    ensures { result ≡ joined column total x % 2 ^ 64 }
{
    if column == GREATEST {
        return total.max(x);
    }
    total.wrapping_add(x)
}

fn join(sheet: &mut [u8], wide: bool, n: usize, column: usize)
    requires { Roomy wide sheet.old × (n < 64) × (column < 10) }
    ensures { Becomes wide sheet.old sheet.new (λ f. put f 64 column (joined column (f 64 column) (f n column))) }
{
    let x = cell(sheet, wide, n, column);
    let total = cell(sheet, wide, TOTAL, column);
    put_cell(sheet, wide, TOTAL, column, join_with(column, total, x));
}

fn join_row(sheet: &mut [u8], wide: bool, n: usize)
    requires { Roomy wide sheet.old × (n < 64) }
    ensures { Becomes wide sheet.old sheet.new (λ f. row_joined f n 10) }
{
    for c in 0..COLUMNS {
        join(sheet, wide, n, c);
    }
}

// Forty bytes, a row or half a wide one.
fn forty_zeros(sheet: &[u8], at: usize) -> bool
    requires { at + 40 ≤ length sheet.now }
    ensures { FoundZero result at 40 sheet.now }
{
    (word_at(sheet, at) == 0)
        & (word_at(sheet, at + 8) == 0)
        & (word_at(sheet, at + 16) == 0)
        & (word_at(sheet, at + 24) == 0)
        & (word_at(sheet, at + 32) == 0)
}

fn is_zero_row(sheet: &[u8], wide: bool, n: usize) -> bool
    requires { Roomy wide sheet.now × (n < 64) }
    ensures { FoundZero result (cell_place wide n 0) (10 * cell_bytes wide) sheet.now }
{
    let at = place(wide, n, 0);
    let first = forty_zeros(sheet, at);
    if wide {
        return first & forty_zeros(sheet, at + 40);
    }
    first
}

// A row of zeros has no open wait, and adds nothing to the total.
fn finish_row(sheet: &mut [u8], wide: bool, n: usize)
    requires { Roomy wide sheet.old × (n < 64) }
    ensures { Becomes wide sheet.old sheet.new (λ f. row_joined (shut f n) n 10) }
{
    if is_zero_row(sheet, wide, n) {
        return;
    }
    close(sheet, wide, n);
    join_row(sheet, wide, n);
}

pub fn join_all(sheet: &mut [u8], wide: bool)
    requires { Roomy wide sheet.old }
    ensures { Becomes wide sheet.old sheet.new (λ f. finished f 64) }
{
    for n in 0..INPUTS {
        finish_row(sheet, wide, n);
    }
}
