// The cycle of the three writers, after loongarch_pch_pic.rs of axdevice 0.8.5. The state goes in and comes back, with how many events were dropped.
ghost use Rattle.rules.specs.Access.{byte_acts, dword_acts};
ghost use Rattle.device.specs.state.View.{view, Well};
ghost use Rattle.port.specs.readers.Depths.{ByteDepth, SplitDepth, DwordDepth};
ghost use Rattle.port.specs.write_cell.Writes.{Writes, bytes_acts};

use crate::write_cell::Written;
use crate::{readers, write_cell};
use device::map;
use device::map::Cell;
use device::state::PchPicState;

// The three writers call one another as the readers do.
#[cycle(write_byte_write_dword_write_split_bytes)]
pub fn write_byte(state: PchPicState, offset: usize, val: u8, depth: usize) -> Written
    requires { Well state × ByteDepth offset depth }
    ensures { Writes result (view state) (byte_acts (view state).core offset val) }
{
    if let Some(index) = map::reg8_offset(offset) {
        return Written {
            state: write_cell::write_entry(state, index, val),
            dropped: 0,
        };
    }
    let aligned = offset & !0x3;
    let place = offset & 0x3;
    // The Dword as it reads: of ISR the masked bits are lost.
    let old = readers::read_dword(state, aligned, depth);
    let new = bits::with_byte(old, place, val);
    write_dword(state, aligned, new, depth - 1)
}

#[cycle(write_byte_write_dword_write_split_bytes)]
pub fn write_split_bytes(
    state: PchPicState,
    offset: usize,
    len: usize,
    val: u32,
    depth: usize,
) -> Written
    requires { Well state × SplitDepth offset len depth }
    ensures { Writes result (view state) (bytes_acts (view state).core offset val len) }
{
    let mut out = state;
    let mut dropped = 0;
    for idx in 0..len {
        let one = write_byte(out, offset + idx, bits::byte_of(val, idx), depth - 1);
        out = one.state;
        dropped += one.dropped;
    }
    Written {
        state: out,
        dropped,
    }
}

#[cycle(write_byte_write_dword_write_split_bytes)]
pub fn write_dword(state: PchPicState, offset: usize, val: u32, depth: usize) -> Written
    requires { Well state × DwordDepth offset depth }
    ensures { Writes result (view state) (dword_acts offset val) }
{
    match map::decode(offset) {
        Cell::Half(register, high) => write_cell::write_half(state, register, val, high),
        Cell::Bytes => write_split_bytes(state, offset, 4, val, depth - 1),
        Cell::Nothing => Written { state, dropped: 0 },
    }
}
