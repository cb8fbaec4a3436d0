// What a line asks for, by its letter and its fields.
ghost use Rattle.std.specs.Prelude.{◌≡◌, [], ◌∷◌, drop};
ghost use Rattle.sessions.specs.Session.{fields, if_right, level_line, poll_line, read_line, write_line, drain_line, line_of};
ghost use Rattle.session.specs.request.Requests.{request_view};

use crate::hex;

#[derive(Clone, Copy)]
pub enum Request {
    // The input, and whether it is raised.
    Level(u64, bool),
    Poll(u64),
    // The width and the address; of a write the value too.
    Read(u64, u64),
    Write(u64, u64, u64),
    Drain,
}

// l II V
fn level_request(line: &[u8]) -> Option<Request>
    ensures { request_view result ≡ if_right (fields (2 ∷ 1 ∷ []) (drop 1 line.now)) level_line }
{
    let input = hex::field(line, 1, 2)?;
    let level = hex::field(line, 4, 1)?;
    if 6 < line.len() {
        return None;
    }
    if 1 < level {
        return None;
    }
    Some(Request::Level(input, level == 1))
}

// p II
fn poll_request(line: &[u8]) -> Option<Request>
    ensures { request_view result ≡ if_right (fields (2 ∷ []) (drop 1 line.now)) poll_line }
{
    let input = hex::field(line, 1, 2)?;
    if 4 < line.len() {
        return None;
    }
    Some(Request::Poll(input))
}

// r W AAAA
fn read_request(line: &[u8]) -> Option<Request>
    ensures { request_view result ≡ if_right (fields (1 ∷ 4 ∷ []) (drop 1 line.now)) read_line }
{
    let width = hex::field(line, 1, 1)?;
    let address = hex::field(line, 3, 4)?;
    if 8 < line.len() {
        return None;
    }
    Some(Request::Read(width, address))
}

// w W AAAA and 16 digits
fn write_request(line: &[u8]) -> Option<Request>
    ensures { request_view result ≡ if_right (fields (1 ∷ 4 ∷ 16 ∷ []) (drop 1 line.now)) write_line }
{
    let width = hex::field(line, 1, 1)?;
    let address = hex::field(line, 3, 4)?;
    let value = hex::field(line, 8, 16)?;
    if 25 < line.len() {
        return None;
    }
    Some(Request::Write(width, address, value))
}

// d
fn drain_request(line: &[u8]) -> Option<Request>
    ensures { request_view result ≡ if_right (fields [] (drop 1 line.now)) drain_line }
{
    if 1 < line.len() {
        return None;
    }
    Some(Request::Drain)
}

// None of a line of no form that is known.
pub fn parse(line: &[u8]) -> Option<Request>
    ensures { request_view result ≡ line_of line.now }
{
    match *line.first()? {
        b'l' => level_request(line),
        b'p' => poll_request(line),
        b'r' => read_request(line),
        b'w' => write_request(line),
        b'd' => drain_request(line),
        _ => None,
    }
}
