// The input, in chunks of any size: its lines are put together and played, and each answer is written with its ending.
#![tactic(auto)]

pub mod hex;
pub mod line_end;
pub mod play_line;
pub mod reply;
pub mod request;

ghost use Rattle.std.specs.Prelude.{◌≤◌, length, take};
ghost use Rattle.sessions.specs.Session.{lines_of, answers};
ghost use Rattle.device.specs.state.View.{view};
ghost use Rattle.session.specs.reply.Says.{Says};
ghost use Rattle.session.specs.Feeds.{Starts, Ready, FeedsByte, FeedsChunk};

use device::state::PchPicState;

// Between two bytes of the input: the state, and how many bytes of the line so far stand at the front of the line buffer.
// That buffer has 32 bytes or more. The longest line that asks for something has 25, so of a longer one it is enough to
// keep the front: it is answered with a question mark, whatever its other bytes are.
#[derive(Clone, Copy)]
pub struct Session {
    pub state: PchPicState,
    pub kept: usize,
}

pub fn start() -> Session
    ensures { Starts result }
{
    Session {
        state: PchPicState::reset(),
        kept: 0,
    }
}

// What a byte of the input leaves, and how many bytes it had written.
#[derive(Clone, Copy)]
struct Step {
    session: Session,
    len: usize,
}

// An ending plays the line so far; any other byte goes behind it, where there is room.
fn feed_byte(session: Session, line: &mut [u8], byte: u8, out: &mut [u8]) -> Step
    requires { Ready session line.old × (66 ≤ length out.old) }
    ensures { FeedsByte session line.old byte out.old result line.new out.new }
{
    let Session { state, kept } = session;
    if byte == b'\n' {
        let played = line_end::play_line(state, &line[..kept], out);
        return Step {
            session: Session {
                state: played.state,
                kept: 0,
            },
            len: played.len,
        };
    }
    if line.len() <= kept {
        return Step { session, len: 0 };
    }
    line[kept] = byte;
    Step {
        session: Session {
            state,
            kept: kept + 1,
        },
        len: 0,
    }
}

// What a chunk leaves: how many of its bytes were taken, and how many bytes of answers were written.
#[derive(Clone, Copy)]
pub struct Fed {
    pub session: Session,
    pub taken: usize,
    pub len: usize,
}

// As much of a chunk as the buffer has room for the answers of, at least one byte.
pub fn feed(session: Session, line: &mut [u8], chunk: &[u8], out: &mut [u8]) -> Fed
    requires { Ready session line.old × (66 ≤ length out.old) }
    ensures { FeedsChunk session line.old chunk.now out.old result line.new out.new }
{
    let room = out.len() - 66;
    let mut next = session;
    let mut taken = 0;
    let mut len = 0;
    // A while and no for: it stops where no room is left, and tells how far it came.
    while taken < chunk.len() && len <= room {
        let step = feed_byte(next, line, chunk[taken], &mut out[len..]);
        next = step.session;
        len += step.len;
        taken += 1;
    }
    Fed {
        session: next,
        taken,
        len,
    }
}

// The input ends: a line so far is played too, and then comes the end's line.
pub fn close(session: Session, line: &[u8], out: &mut [u8]) -> usize
    requires { Ready session line.now × (81 ≤ length out.old) }
    ensures { Says result out.old out.new (answers (view session.state) (lines_of (take session.kept line.now))) }
{
    let Session { state, kept } = session;
    if kept == 0 {
        return line_end::end(state, out);
    }
    let played = line_end::play_line(state, &line[..kept], out);
    let len = played.len;
    let more = line_end::end(played.state, &mut out[len..]);
    len + more
}
