// The calls of `pch_pic_trace` for C. A crate is a library for other crates or for C: this is the one for C, and says word for word what that one says.
#![tactic(auto)]

ghost use Rattle.std.specs.Prelude.{◌≡◌};
ghost use Rattle.traces.specs.plays.Playing.{play_leaves, playing, playing_on};

#[unsafe(no_mangle)]
pub extern "C" fn pch_pic_play(
    trace: &[u8],
    image: &mut [u8],
    answers: &mut [u8],
    events: &mut [u8],
    answer: &mut [u8],
) -> u8
    ensures { play_leaves result image.new answers.new events.new answer.new
        ≡ playing trace.now image.old answers.old events.old answer.old }
{
    pch_pic_trace::pch_pic_play(&*trace, image, answers, events, answer)
}

#[unsafe(no_mangle)]
pub extern "C" fn pch_pic_play_on(
    trace: &[u8],
    image: &mut [u8],
    answers: &mut [u8],
    events: &mut [u8],
    answer: &mut [u8],
) -> u8
    ensures { play_leaves result image.new answers.new events.new answer.new
        ≡ playing_on trace.now image.old answers.old events.old answer.old }
{
    pch_pic_trace::pch_pic_play_on(&*trace, image, answers, events, answer)
}
