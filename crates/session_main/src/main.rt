// The session program: lines from standard input, their answers to standard output. The work is done, and proved, in `session`; here bytes are
// read and written. What is read or written cannot be in a contract. A read or write that fails is told on standard error; `main` ends with 0 all the
// same, and `./run` with 1 where something was told there.
#![tactic(auto)]

ghost use Rattle.std.specs.Prelude.{◌≤◌, length};
ghost use Rattle.session.specs.Feeds.{Ready};

use session::Session;
use std::io;
use std::io::{ErrorKind, Read};
use std::ops::ControlFlow;
use std::process::ExitCode;

// The status that a shell tells of a program which ends because its reader has closed the pipe.
const CLOSED_PIPE: u8 = 141;

// Whether it was written, all of it. Of a reader that has closed its pipe nothing is told.
fn put(rt: &(impl Print + Eprint), text: &[u8]) -> io::Result<()> {
    let written = rt.write_all(text);
    if let Err(error) = &written {
        if error.kind() != ErrorKind::BrokenPipe {
            let _ = eprintln!(rt; "session: standard output cannot be written: {error}");
        }
    }
    written
}

// The answers to a chunk are written together, as many as the buffer holds. The program ends where they cannot be written.
fn play_chunk(
    rt: &(impl Print + Eprint),
    session: &mut Session,
    line: &mut [u8],
    chunk: &[u8],
) -> ControlFlow<()>
    requires { Ready session.old line.old }
    ensures { Ready session.new line.new }
{
    let mut out = [0u8; 4096];
    let mut at = 0;
    // A while and no for: a step is as long as what was taken.
    while at < chunk.len() {
        let fed = session::feed(*session, line, &chunk[at..], &mut out);
        *session = fed.session;
        at += fed.taken;
        if put(rt, &out[..fed.len]).is_err() {
            return ControlFlow::Break(());
        }
    }
    ControlFlow::Continue(())
}

// One read. It gives nothing where the input ends, or fails.
fn play_some(
    rt: &(impl Print + Eprint),
    input: &mut impl Read,
    session: &mut Session,
    line: &mut [u8],
) -> ControlFlow<()>
    requires { Ready session.old line.old }
    ensures { Ready session.new line.new }
{
    let mut buf = [0u8; 4096];
    let n = match input.read(&mut buf) {
        Ok(n) => n,
        Err(error) => {
            let _ = eprintln!(rt; "session: standard input cannot be read: {error}");
            0
        }
    };
    if n == 0 {
        return ControlFlow::Break(());
    }
    play_chunk(rt, session, line, &buf[..n])
}

// A proved loop has to end, and nothing says that the input does. So the turns are counted, to a number that no run reaches.
fn play_all(rt: &(impl Print + Eprint), input: &mut impl Read, line: &mut [u8]) -> Session
    requires { 32 ≤ length line.old }
    ensures { Ready result line.new }
{
    let mut session = session::start();
    for _ in 0..u64::MAX {
        if play_some(rt, input, &mut session, line).is_break() {
            break;
        }
    }
    session
}

fn main(rt: HostRuntime) -> ExitCode {
    let mut line = [0u8; 32];
    let session = play_all(&rt, &mut rt.stdin(), &mut line);
    let mut out = [0u8; 128];
    let len = session::close(session, &line, &mut out);
    match put(&rt, &out[..len]) {
        Err(error) if error.kind() == ErrorKind::BrokenPipe => ExitCode::from(CLOSED_PIPE),
        _ => ExitCode::SUCCESS,
    }
}
