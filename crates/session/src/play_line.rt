// A line of a session played: what it asks for is done or refused, and the answer is written.
ghost use Rattle.std.specs.Prelude.{◌<◌, ◌≤◌, length, Some};
ghost use Rattle.sessions.specs.Session.{played_line, played, ending};
ghost use Rattle.device.specs.state.View.{view, Well};
ghost use Rattle.session.specs.request.Requests.{request_view};
ghost use Rattle.session.specs.reply.Says.{Says};
ghost use Rattle.session.specs.play_line.Plays.{Plays, refused_with, routed_with};
ghost use Rattle.session.specs.declared.request.Request.TheVariants.{Level, Poll, Read, Write, Drain};

use crate::request::Request;
use crate::{reply, request};
use device::state::PchPicState;
use device::window;
use port::irq_level::Routed;
use port::{by_width, drain_output, irq_level};

// The session's window.
const BASE: u64 = 0;

const SIZE: u64 = 0x400;

// What a line leaves: the state, and how many bytes of the buffer its answer takes.
#[derive(Clone, Copy)]
pub struct Played {
    pub state: PchPicState,
    pub len: usize,
}

// A refusal changes no state.
fn refused(state: PchPicState, number: u8, out: &mut [u8]) -> Played
    requires { Well state × (number < 10) × (2 ≤ length out.old) }
    ensures { Plays result out.old out.new (refused_with (view state) number) }
{
    let len = reply::put_refusal(out, number);
    Played { state, len }
}

// What a call on an input moved and returned.
fn routed(state: PchPicState, moved: Routed, out: &mut [u8]) -> Played
    requires { Well state × (4 ≤ length out.old) }
    ensures { Plays result out.old out.new (routed_with (view state) moved) }
{
    let len = reply::put_vector(out, moved.answer);
    Played {
        state: PchPicState {
            lines: moved.lines,
            ..state
        },
        len,
    }
}

fn play_level(state: PchPicState, input: u64, raise: bool, out: &mut [u8]) -> Played
    requires { Well state × (65 ≤ length out.old) }
    ensures { Plays result out.old out.new (played_line (view state) (request_view (Some (Level input raise)))) }
{
    if 64 <= input {
        return refused(state, 3, out);
    }
    let vectors = &state.tables.htmsi_vector;
    let moved = irq_level::set_irq_level(state.lines, vectors, input as usize, raise);
    routed(state, moved, out)
}

fn play_poll(state: PchPicState, input: u64, out: &mut [u8]) -> Played
    requires { Well state × (65 ≤ length out.old) }
    ensures { Plays result out.old out.new (played_line (view state) (request_view (Some (Poll input)))) }
{
    if 64 <= input {
        return refused(state, 3, out);
    }
    let vectors = &state.tables.htmsi_vector;
    let moved = irq_level::pending_vector(state.lines, vectors, input as usize);
    routed(state, moved, out)
}

fn play_read(state: PchPicState, width: u64, address: u64, out: &mut [u8]) -> Played
    requires { Well state × (65 ≤ length out.old) }
    ensures { Plays result out.old out.new (played_line (view state) (request_view (Some (Read width address)))) }
{
    let Some(bytes) = window::width_of(width) else {
        return refused(state, 2, out);
    };
    let Some(offset) = window::locate(BASE, SIZE, address, width) else {
        return refused(state, 1, out);
    };
    let value = by_width::read_register(state, bytes, offset);
    let len = reply::put_value(out, value);
    Played { state, len }
}

fn play_write(state: PchPicState, width: u64, address: u64, value: u64, out: &mut [u8]) -> Played
    requires { Well state × (65 ≤ length out.old) }
    ensures { Plays result out.old out.new (played_line (view state) (request_view (Some (Write width address value)))) }
{
    let Some(bytes) = window::width_of(width) else {
        return refused(state, 2, out);
    };
    let Some(offset) = window::locate(BASE, SIZE, address, width) else {
        return refused(state, 1, out);
    };
    // How many events were dropped is not said: a write answers ok.
    let written = by_width::write_register(state, bytes, offset, value);
    let len = reply::put_ok(out);
    Played {
        state: written.state,
        len,
    }
}

fn play_drain(state: PchPicState, out: &mut [u8]) -> Played
    requires { Well state × (65 ≤ length out.old) }
    ensures { Plays result out.old out.new (played_line (view state) (request_view (Some Drain))) }
{
    let mut pairs = [0u8; 32];
    let drained = drain_output::drain_output_events(state.ring, &mut pairs);
    let len = reply::put_drained(out, &pairs, drained.count);
    Played {
        state: PchPicState {
            ring: drained.ring,
            ..state
        },
        len,
    }
}

// One line, without its ending. The answer stands at the front of out, without an ending; every other byte stays.
pub fn play(state: PchPicState, line: &[u8], out: &mut [u8]) -> Played
    requires { Well state × (65 ≤ length out.old) }
    ensures { Plays result out.old out.new (played (view state) line.now) }
{
    let Some(request) = request::parse(line) else {
        let len = reply::put_unknown(out);
        return Played { state, len };
    };
    match request {
        Request::Level(input, raise) => play_level(state, input, raise, out),
        Request::Poll(input) => play_poll(state, input, out),
        Request::Read(width, address) => play_read(state, width, address, out),
        Request::Write(width, address, value) => play_write(state, width, address, value, out),
        Request::Drain => play_drain(state, out),
    }
}

// The end's line, in the same way.
pub fn finish(state: PchPicState, out: &mut [u8]) -> usize
    requires { 14 ≤ length out.old }
    ensures { Says result out.old out.new (ending (view state)) }
{
    reply::put_drops(out, state.ring.output_drops)
}
