// A trace played on from an image: the image is tested as its records' calls test it, the trace whole, and then its records are played one after another.
ghost use Rattle.std.specs.Prelude.{◌≡◌};
ghost use Rattle.traces.specs.plays.Playing.{play_on_ending};
ghost use Rattle.pch_pic_trace.specs.play_trace.Plays.{ends};

use crate::play_records::{play_all, roomy};
use answer::Told;
use answer::accepted::accepted;

// What is refused changes nothing: the image first, then the trace, and last the room.
pub fn play(trace: &[u8], image: &mut [u8], answers: &mut [u8], events: &mut [u8]) -> Told
    ensures { ends result image.new answers.new events.new
        ≡ play_on_ending trace.now image.old answers.old events.old }
{
    let form = accepted(image)?;
    let records = roomy(trace, answers.len(), events.len())?;
    play_all(
        trace,
        records.first,
        records.count,
        image,
        form,
        answers,
        events,
    );
    Ok(Some(records.count as u64))
}
