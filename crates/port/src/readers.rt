// The cycle of the three readers, after loongarch_pch_pic.rs of axdevice 0.8.5. A read changes nothing.
ghost use Rattle.std.specs.Prelude.{◌≡◌};
ghost use Rattle.rules.specs.Access.{read_byte, read_dword};
ghost use Rattle.device.specs.state.View.{view};
ghost use Rattle.port.specs.readers.Depths.{ByteDepth, SplitDepth, DwordDepth};
ghost use Rattle.port.specs.readers.Bytes.{bytes_read};

use crate::read_cell;
use device::map;
use device::map::Cell;
use device::state::PchPicState;

// The three readers call one another, each time at a smaller depth: a Byte outside 0x100..0x39f needs 1, a Dword among the bytes 2.
#[cycle(read_byte_read_dword_read_split_bytes)]
pub fn read_byte(state: PchPicState, offset: usize, depth: usize) -> u8
    requires { ByteDepth offset depth }
    ensures { result ≡ read_byte (view state).core offset }
{
    if let Some(index) = map::reg8_offset(offset) {
        return read_cell::read_entry(state, index);
    }
    let place = offset & 0x3;
    bits::byte_of(read_dword(state, offset & !0x3, depth - 1), place)
}

#[cycle(read_byte_read_dword_read_split_bytes)]
pub fn read_split_bytes(state: PchPicState, offset: usize, len: usize, depth: usize) -> u32
    requires { SplitDepth offset len depth }
    ensures { result ≡ bytes_read (view state).core offset len }
{
    let mut value = 0;
    for idx in 0..len {
        value |= u32::from(read_byte(state, offset + idx, depth - 1)) << (idx * 8);
    }
    value
}

#[cycle(read_byte_read_dword_read_split_bytes)]
pub fn read_dword(state: PchPicState, offset: usize, depth: usize) -> u32
    requires { DwordDepth offset depth }
    ensures { result ≡ read_dword (view state).core offset }
{
    match map::decode(offset) {
        Cell::Half(register, high) => bits::half(read_cell::value_of(state, register), high),
        Cell::Bytes => read_split_bytes(state, offset, 4, depth - 1),
        Cell::Nothing => 0,
    }
}
