// A line's answer with its ending behind it, and the end's line in the same way.
ghost use Rattle.std.specs.Prelude.{◌≡◌, [], ◌≤◌, length};
ghost use Rattle.sessions.specs.Session.{played, answers};
ghost use Rattle.device.specs.state.View.{view, Well};
ghost use Rattle.session.specs.reply.Says.{Says};
ghost use Rattle.session.specs.play_line.Plays.{Plays};
ghost use Rattle.session.specs.line_end.Ended.{ended};

use crate::play_line;
use crate::play_line::Played;
use device::state::PchPicState;

// A line played.
pub fn play_line(state: PchPicState, line: &[u8], out: &mut [u8]) -> Played
    requires { Well state × (66 ≤ length out.old) }
    ensures { Plays result out.old out.new (ended (played (view state) line.now)) × (result.len ≤ 66) }
{
    let played = play_line::play(state, line, &mut out[..65]);
    let len = played.len;
    out[len] = b'\n';
    Played {
        state: played.state,
        len: len + 1,
    }
}

// The end's line.
pub fn end(state: PchPicState, out: &mut [u8]) -> usize
    requires { 15 ≤ length out.old }
    ensures { Says result out.old out.new (answers (view state) []) × (result ≡ 15) }
{
    let len = play_line::finish(state, out);
    out[len] = b'\n';
    len + 1
}
