// Prints the register map from the table: a row for each half, for the route bytes, for the vector bytes and for what lies between. The rows are found,
// and proved, in `map_rows`; here bytes are written, and what is written cannot be in a contract. A write that fails is told on standard error, and no
// other follows it; `main` ends with 0 all the same.
#![tactic(auto)]

ghost use Rattle.std.specs.Prelude.{◌<◌, ◌≤◌};
ghost use Rattle.table.specs.Meaning.{Agrees};

use device::map::{Plain, Register};
use std::io::ErrorKind;
use std::process::ExitCode;
use std::{fmt, io};
use table::{Place, map_rows, table_rows};

// The status that a shell tells of a program which ends because its reader has closed the pipe.
const CLOSED_PIPE: u8 = 141;

// A register's name.
fn name_of(register: Register) -> &'static str {
    match register {
        Register::Id => "ID",
        Register::Mask => "MASK",
        Register::Clear => "CLEAR",
        Register::Irr => "IRR",
        Register::Isr => "ISR",
        Register::Plain(Plain::HtmsiEn) => "HTMSI_EN",
        Register::Plain(Plain::Edge) => "EDGE",
        Register::Plain(Plain::Pol) => "POL",
        Register::Plain(Plain::Auto0) => "AUTO0",
        Register::Plain(Plain::Auto1) => "AUTO1",
    }
}

// What a row begins with.
#[derive(Clone, Copy)]
struct First(Place);

impl fmt::Display for First {
    fn fmt<W: fmt::Write>(&self, f: &mut fmt::Formatter<W>) -> fmt::Result {
        match self.0 {
            Place::Part {
                register,
                high,
                byte,
                ..
            } => {
                let name = name_of(register);
                let half = if high { "high" } else { "low" };
                write!(f, "{name:<10}{half:<6}bytes {byte}")
            }
            Place::Route(input) => write!(f, "route           inputs {input:02}"),
            Place::Vector(input) => write!(f, "vector          inputs {input:02}"),
            Place::Nothing => write!(f, "nothing"),
        }
    }
}

// And what it ends with.
#[derive(Clone, Copy)]
struct Last(Place);

impl fmt::Display for Last {
    fn fmt<W: fmt::Write>(&self, f: &mut fmt::Formatter<W>) -> fmt::Result {
        match self.0 {
            Place::Part { byte, silent, .. } => {
                let note = if silent {
                    "  silent to Byte and Word"
                } else {
                    ""
                };
                write!(f, " to {byte}{note}")
            }
            Place::Route(input) | Place::Vector(input) => write!(f, " to {input:02}"),
            Place::Nothing => Ok(()),
        }
    }
}

fn put_row(rt: &impl Print, table: &[[u8; 32]; 32], start: usize, end: usize) -> io::Result<()>
    requires { Agrees table.now × (start < end) × (end ≤ 1024) }
{
    let last = end - 1;
    let from = First(table::look(table, start));
    let to = Last(table::look(table, last));
    println!(rt; "{start:#05x}..{last:#05x}  {from}{to}")
}

fn put_map(rt: &impl Print) -> io::Result<()> {
    let table = table_rows::whole();
    println!(rt; "offsets       register  half  bytes of the half, or inputs")?;
    let mut at = 0;
    // A while and no for: a row is as long as `row_end` finds it.
    while at < 1024 {
        let end = map_rows::row_end(&table, at);
        put_row(rt, &table, at, end)?;
        at = end;
    }
    Ok(())
}

// Of a reader that has closed its pipe nothing is told.
fn main(rt: HostRuntime) -> ExitCode {
    match put_map(&rt) {
        Ok(()) => ExitCode::SUCCESS,
        Err(error) if error.kind() == ErrorKind::BrokenPipe => ExitCode::from(CLOSED_PIPE),
        Err(error) => {
            let _ = eprintln!(rt; "map: standard output cannot be written: {error}");
            ExitCode::SUCCESS
        }
    }
}
