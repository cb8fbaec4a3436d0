// The exported call that a record of a trace is, but for a drain, made on an image that is accepted: with base 0 and size 65,536, and with nothing tested again.
ghost use Rattle.std.specs.Prelude.{◌≡◌, []};
ghost use Rattle.calls.specs.Calls.{ending};
ghost use Rattle.traces.specs.Played.{request_of};
ghost use Rattle.image.specs.Shown.{form_view};
ghost use Rattle.answer.specs.Given.{ends};
ghost use Rattle.trace.specs.record_bytes.Shown.{record_view};
ghost use Rattle.pch_pic_trace.specs.record_call.Callable.{Callable};

use answer::Told;
use image::form::Form;
use six_calls::{accepted_access, accepted_input};
use trace::record_bytes::{LOWER, POLL, RAISE, READ, Record};

const SIZE: u64 = 0x1_0000;

// Any record but a drain. The offset is widened where it is used: before the match it is kept on the stack for every kind, and a record takes three instructions more.
pub fn call(image: &mut [u8], form: Form, r: Record) -> Told
    requires { Callable (form_view form) (record_view r) image.old }
    ensures { ends result image.new [] ≡ ending (request_of (record_view r)) image.old }
{
    let byte = r.byte as u64;
    match r.kind {
        RAISE => accepted_input::level(image, form, byte, 1),
        LOWER => accepted_input::level(image, form, byte, 0),
        POLL => accepted_input::poll(image, form, byte),
        READ => accepted_access::read(image, form, 0, SIZE, r.offset as u64, byte),
        _ => accepted_access::write(image, form, 0, SIZE, r.offset as u64, byte, r.value),
    }
}
