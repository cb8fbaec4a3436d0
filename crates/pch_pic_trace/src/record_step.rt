// One record of a trace played on an image that is accepted: a drain of all, or the call that it is; and its answer.
ghost use Rattle.image.specs.Shown.{form_view};
ghost use Rattle.trace.specs.record_bytes.Shown.{record_view};
ghost use Rattle.pch_pic_trace.specs.record_step.Step.{Drainable, Playable, Steps};

use crate::record_call::call;
use answer::{put_answer, tell};
use drain::drains;
use image::form;
use image::form::Form;
use trace::record_bytes::{DRAIN, Record};

// The room of a drain of all.
pub const ROOM: usize = 64;

// A drain of all; how many bytes of events came out.
fn drain_all(image: &mut [u8], form: Form, r: Record, answer: &mut [u8], out: &mut [u8]) -> usize
    requires { Drainable (form_view form) (record_view r) image.old answer.old out.old }
    ensures { Steps (record_view r) image.old image.new answer.new out.old out.new result }
{
    let count = drains::drain(image, form, out);
    put_answer(answer, 0, Some(count as u64));
    form::EVENT * count
}

// Sixteen bytes are its answer, and what it drains goes to the front of the events; how many bytes these are.
pub fn step(image: &mut [u8], form: Form, r: Record, answer: &mut [u8], events: &mut [u8]) -> usize
    requires { Playable (form_view form) (record_view r) image.old answer.old events.old }
    ensures { Steps (record_view r) image.old image.new answer.new events.old events.new result }
{
    if r.kind == DRAIN {
        return drain_all(image, form, r, answer, &mut events[0..ROOM]);
    }
    let told = call(image, form, r);
    tell(answer, told);
    0
}
