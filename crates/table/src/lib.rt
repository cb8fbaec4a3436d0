// The register map as a table: what a number of it tells, and so what stands at an offset of whatever table agrees with the map.
#![tactic(auto)]

pub mod map_rows;
pub mod table_rows;

ghost use Rattle.std.specs.Prelude.{◌≡◌};
ghost use Rattle.device.specs.map.Views.{register_view};
ghost use Rattle.table.specs.Meaning.{part_of, reading, meant, Agrees};
ghost use Rattle.table.specs.Views.{place_view};

use device::map::{Plain, Register};

// What a byte belongs to: a register, its high or low half, which byte of that, and whether it is silent to Byte and Word; the route or the vector byte of an
// input; nothing.
#[derive(Clone, Copy)]
pub enum Place {
    Part {
        register: Register,
        high: bool,
        byte: usize,
        silent: bool,
    },
    Route(usize),
    Vector(usize),
    Nothing,
}

// The registers from here on are silent to Byte and Word: IRR.
const SILENT: u8 = 0x70;

// A byte of a register, by the table's number for it.
fn part_of(register: Register, entry: u8) -> Place
    ensures { place_view result ≡ part_of (register_view register) entry }
{
    Place::Part {
        register,
        high: entry / 4 % 2 == 1,
        byte: (entry % 4) as usize,
        silent: entry >= SILENT,
    }
}

// What a number of the table tells: the numbers are the table's own bytes, and C-18 asks for the table.
#[tactic(auto, unfolding(crate::specs::Meaning::reading))]
pub fn place_of(entry: u8) -> Place
    ensures { place_view result ≡ reading entry }
{
    match entry / 8 {
        1 => part_of(Register::Id, entry),
        2 => part_of(Register::Mask, entry),
        3 => part_of(Register::Plain(Plain::HtmsiEn), entry),
        4 => part_of(Register::Plain(Plain::Edge), entry),
        5 => part_of(Register::Clear, entry),
        6 => part_of(Register::Plain(Plain::Auto0), entry),
        7 => part_of(Register::Plain(Plain::Auto1), entry),
        8 => part_of(Register::Isr, entry),
        9 => part_of(Register::Plain(Plain::Pol), entry),
        14 => part_of(Register::Irr, entry),
        16..=23 => Place::Route((entry % 64) as usize),
        24..=31 => Place::Vector((entry % 64) as usize),
        _ => Place::Nothing,
    }
}

// What stands at an offset; from 1,024 up nothing does.
#[tactic(auto, using(crate::proofs::Meant::beyond))]
pub fn look(table: &[[u8; 32]; 32], offset: usize) -> Place
    requires { Agrees table.now }
    ensures { place_view result ≡ meant offset }
{
    if offset >= 1024 {
        return Place::Nothing;
    }
    place_of(table[offset / 32][offset % 32])
}
