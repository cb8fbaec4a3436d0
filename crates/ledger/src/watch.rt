// What a pass keeps of the device, by value: mask, latches, service, and how many events wait. What moves them brings its marks to the sheet.
ghost use Rattle.std.specs.Prelude.{◌<◌, true, false, [], ◌∷◌, map, if◌then◌else◌};
ghost use Rattle.basics.specs.Inputs.{on, inputs, only};
ghost use Rattle.rules.specs.Lines as lines;
ghost use Rattle.rules.specs.Core as core;
ghost use Rattle.passes.specs.tallies.Marks.{raised, began, taken_back, idle_in};
ghost use Rattle.passes.specs.tallies.Grid.{record_limit, Roomy};
ghost use Rattle.passes.specs.tallies.Following.{Takes, Offers, Turns, Follows};
ghost use Rattle.ledger.specs.cells.Fates.{Ready};
ghost use Rattle.ledger.specs.watch.Kept.{lines_of};

use crate::cells::{Fate, LOWERS, RAISES, begin, count, event, withdraw};
use device::decide;

#[derive(Clone, Copy)]
pub struct Watched {
    pub mask: u64,
    pub irr: u64,
    pub isr: u64,
    pub waiting: u64,
}

// As many events wait as a ring has room for.
const ROOM: u64 = 16;

// ---- events

// An event is offered: it is kept where fewer than sixteen wait. The answer is how many wait then.
fn offer(sheet: &mut [u8], wide: bool, n: usize, k: u64, asserted: bool, waiting: u64) -> u64
    requires { Ready wide sheet.old n k }
    ensures { Offers wide sheet.old sheet.new k waiting result (λ vs. lines.event vs true asserted n ∷ []) }
{
    if waiting < ROOM {
        event(sheet, wide, n, k, asserted, Fate::Kept);
        return waiting + 1;
    }
    event(sheet, wide, n, k, asserted, Fate::Dropped);
    waiting
}

// A deassert for each input of a set, lowest first.
fn offer_each(sheet: &mut [u8], wide: bool, set: u64, k: u64, waiting: u64) -> u64
    requires { Roomy wide sheet.old × (k < record_limit wide) }
    ensures { Offers wide sheet.old sheet.new k waiting result (λ vs. map (lines.event vs true false) (inputs (on set))) }
{
    let mut left = set;
    let mut wait = waiting;
    while left != 0 {
        let n = u64::trailing_zeros(left) as usize;
        wait = offer(sheet, wide, n, k, false, wait);
        left &= left - 1;
    }
    wait
}

// The waits of a set are taken back.
fn withdraw_each(sheet: &mut [u8], wide: bool, set: u64)
    requires { Roomy wide sheet.old }
    ensures { Takes wide sheet.old sheet.new (map taken_back (inputs (on set))) }
{
    let mut left = set;
    while left != 0 {
        let n = u64::trailing_zeros(left) as usize;
        withdraw(sheet, wide, n);
        left &= left - 1;
    }
}

// ---- what enters and what leaves

// The lowest of a set that waits goes into service, and its assert is offered.
fn enter(sheet: &mut [u8], wide: bool, w: Watched, set: u64, k: u64) -> Watched
    requires { Roomy wide sheet.old × (k < record_limit wide) }
    ensures { Turns wide (lines_of result) sheet.old sheet.new k w.waiting result.waiting (λ vs. lines.enter vs true (on set) (lines_of w)) }
{
    let waits = decide::pending(set, w.irr, w.mask, w.isr);
    if waits == 0 {
        return w;
    }
    let n = u64::trailing_zeros(waits) as usize;
    let waiting = offer(sheet, wide, n, k, true, w.waiting);
    Watched {
        isr: w.isr | 1u64 << n,
        waiting,
        ..w
    }
}

// All of a set that are in service leave it, and their deasserts are offered.
fn leave(sheet: &mut [u8], wide: bool, w: Watched, set: u64, k: u64) -> Watched
    requires { Roomy wide sheet.old × (k < record_limit wide) }
    ensures { Turns wide (lines_of result) sheet.old sheet.new k w.waiting result.waiting (λ vs. lines.leave vs true (on set) (lines_of w)) }
{
    let served = decide::served(set, w.isr);
    let waiting = offer_each(sheet, wide, served, k, w.waiting);
    Watched {
        isr: w.isr & !set,
        waiting,
        ..w
    }
}

// One input that waits goes into service, and its assert is returned.
fn enter_one(sheet: &mut [u8], wide: bool, w: Watched, n: usize, k: u64) -> Watched
    requires { Ready wide sheet.old n k }
    ensures { Turns wide (lines_of result) sheet.old sheet.new k w.waiting result.waiting
        (λ vs. lines.enter vs false (only n) (lines_of w)) }
{
    let bit = 1u64 << n;
    if decide::pending(bit, w.irr, w.mask, w.isr) == 0 {
        return w;
    }
    event(sheet, wide, n, k, true, Fate::Returned);
    Watched {
        isr: w.isr | bit,
        ..w
    }
}

// One input that is in service leaves it, and its deassert is returned.
fn leave_one(sheet: &mut [u8], wide: bool, w: Watched, n: usize, k: u64) -> Watched
    requires { Ready wide sheet.old n k }
    ensures { Turns wide (lines_of result) sheet.old sheet.new k w.waiting result.waiting
        (λ vs. lines.leave vs false (only n) (lines_of w)) }
{
    let bit = 1u64 << n;
    if decide::served(bit, w.isr) == 0 {
        return w;
    }
    event(sheet, wide, n, k, false, Fate::Returned);
    Watched {
        isr: w.isr & !bit,
        ..w
    }
}

// ---- the calls on an input

pub fn poll(sheet: &mut [u8], wide: bool, w: Watched, n: usize, k: u64) -> Watched
    requires { Ready wide sheet.old n k }
    ensures { Follows wide (lines_of w) w.waiting (lines_of result) result.waiting sheet.old sheet.new k
        (λ c. core.move (core.poll n) ∷ []) }
{
    enter_one(sheet, wide, w, n, k)
}

// A raise is counted; a wait begins if it found the input neither latched nor in service.
fn count_raise(sheet: &mut [u8], wide: bool, w: Watched, n: usize, k: u64)
    requires { Ready wide sheet.old n k }
    ensures { Takes wide sheet.old sheet.new (raised n ∷ (if idle_in (lines_of w) n then began n k ∷ [] else [])) }
{
    count(sheet, wide, n, RAISES);
    let bit = 1u64 << n;
    if decide::served(bit, w.irr | w.isr) == 0 {
        begin(sheet, wide, n, k);
    }
}

// It is latched, and then polled.
pub fn raise(sheet: &mut [u8], wide: bool, w: Watched, n: usize, k: u64) -> Watched
    requires { Ready wide sheet.old n k }
    ensures { Follows wide (lines_of w) w.waiting (lines_of result) result.waiting sheet.old sheet.new k
        (λ c. core.move (core.raise n) ∷ []) }
{
    count_raise(sheet, wide, w, n, k);
    let latched = Watched {
        irr: w.irr | 1u64 << n,
        ..w
    };
    enter_one(sheet, wide, latched, n, k)
}

// Its latch goes off, its wait is taken back, and it leaves service.
pub fn lower(sheet: &mut [u8], wide: bool, w: Watched, n: usize, k: u64) -> Watched
    requires { Ready wide sheet.old n k }
    ensures { Follows wide (lines_of w) w.waiting (lines_of result) result.waiting sheet.old sheet.new k
        (λ c. core.move (core.lower n) ∷ []) }
{
    count(sheet, wide, n, LOWERS);
    withdraw(sheet, wide, n);
    let unlatched = Watched {
        irr: w.irr & !(1u64 << n),
        ..w
    };
    leave_one(sheet, wide, unlatched, n, k)
}

// ---- MASK and CLEAR

pub fn write_mask(sheet: &mut [u8], wide: bool, w: Watched, k: u64, val: u32, high: bool) -> Watched
    requires { Roomy wide sheet.old × (k < record_limit wide) }
    ensures { Follows wide (lines_of w) w.waiting (lines_of result) result.waiting sheet.old sheet.new k
        (λ c. core.move (core.set_mask high val) ∷ []) }
{
    let old = w.mask;
    let masked = Watched {
        mask: bits::replace_u32(old, val, high),
        ..w
    };
    let entered = enter(
        sheet,
        wide,
        masked,
        decide::newly_unmasked(old, val, high),
        k,
    );
    leave(
        sheet,
        wide,
        entered,
        decide::newly_masked(old, val, high),
        k,
    )
}

pub fn write_clear(sheet: &mut [u8], wide: bool, w: Watched, k: u64, bits: u64) -> Watched
    requires { Roomy wide sheet.old × (k < record_limit wide) }
    ensures { Follows wide (lines_of w) w.waiting (lines_of result) result.waiting sheet.old sheet.new k
        (λ c. core.move (core.clear bits) ∷ []) }
{
    withdraw_each(sheet, wide, bits);
    let cleared = Watched {
        irr: w.irr & !bits,
        ..w
    };
    leave(sheet, wide, cleared, bits, k)
}
