// The records of a trace, counted in a tally, as the day goes on from an image. The tests come first, in their order: the image, the trace, the tally.
ghost use Rattle.std.specs.Prelude.{◌≡◌, ◌≤◌, length};
ghost use Rattle.images.specs.Form.{form_length};
ghost use Rattle.image.specs.Shown.{form_view};
ghost use Rattle.fields.specs.inplace.Passed.{Passed};
ghost use Rattle.passes.specs.tallies.Tally.{tally_length, sound, tally_test};
ghost use Rattle.ledger.specs.follow.Reached.{Reaches};
ghost use Rattle.pch_pic_tally.specs.adding.Ended.{Keeps, CountsFrom, ends_as, added, added_to};

use crate::soundness;
use answer::Told;
use answer::accepted::accepted;
use fields::{ring, words};
use image::form::Form;
use ledger::cells::{cell, put_cell};
use ledger::follow::follow;
use ledger::totals::TOTAL;
use ledger::watch::Watched;

// What a pass keeps of the device that an image holds.
fn kept_of(image: &[u8], form: Form) -> Watched
    requires { length image.now ≡ form_length (form_view form) }
    ensures { Keeps image.now result }
{
    Watched {
        mask: words::mask(image, form),
        irr: words::irr(image, form),
        isr: words::isr(image, form),
        waiting: ring::waiting(image, form),
    }
}

// The records from the first place on have the numbers behind those that were counted.
fn count(trace: &[u8], first: usize, records: usize, kept: Watched, tally: &mut [u8])
    requires { Reaches trace.now first records × (tally_length ≤ length tally.old) × (tally_test tally.old ≡ sound) }
    ensures { CountsFrom trace.now records kept tally.old tally.new }
{
    let base = cell(tally, true, TOTAL, 0);
    follow(trace, first, records, tally, true, kept, base);
    put_cell(tally, true, TOTAL, 0, base + records as u64);
}

// Of an accepted image.
fn add_on(trace: &[u8], image: &[u8], form: Form, tally: &mut [u8]) -> Told
    requires { Passed (form_view form) image.now × (tally_length ≤ length tally.old) }
    ensures { ends_as result tally.new ≡ added_to trace.now image.now tally.old }
{
    let records = trace::test(trace)?;
    soundness::test(tally)?;
    let kept = kept_of(image, form);
    count(trace, records.first, records.count, kept, tally);
    Ok(None)
}

pub fn add(trace: &[u8], image: &[u8], tally: &mut [u8]) -> Told
    requires { tally_length ≤ length tally.old }
    ensures { ends_as result tally.new ≡ added trace.now image.now tally.old }
{
    let form = accepted(image)?;
    add_on(trace, image, form, tally)
}
