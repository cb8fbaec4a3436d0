// A trace played from reset: tested whole, and then its records one after another.
ghost use Rattle.std.specs.Prelude.{◌≡◌};
ghost use Rattle.traces.specs.plays.Playing.{play_ending};
ghost use Rattle.pch_pic_trace.specs.play_trace.Plays.{ends};

use crate::play_records::{play_all, roomy};
use answer::Told;
use answer::refusals::Refusal;
use image::form::form_of;
use six_calls::reset_drain;

// Of the image the length alone is tested; what is refused changes nothing.
pub fn play(trace: &[u8], image: &mut [u8], answers: &mut [u8], events: &mut [u8]) -> Told
    ensures { ends result image.new answers.new events.new
        ≡ play_ending trace.now image.old answers.old events.old }
{
    let Some(form) = form_of(image.len()) else {
        return Err(Refusal::WrongLength);
    };
    let records = roomy(trace, answers.len(), events.len())?;
    let _ = reset_drain::reset(image);
    play_all(
        trace,
        records.first,
        records.count,
        image,
        form,
        answers,
        events,
    );
    Ok(Some(records.count as u64))
}
