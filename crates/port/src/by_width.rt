// Reading and writing a register, after loongarch_pch_pic.rs of axdevice 0.8.5: what each of the four widths does to a state. A read changes nothing; of a write the
// state goes in and comes back, with how many events were dropped.
ghost use Rattle.std.specs.Prelude.{◌≡◌, ◌+◌, ◌-◌, ◌^◌, ◌≤◌};
ghost use Rattle.rules.specs.Access.{qword, write_acts, read_at};
ghost use Rattle.device.specs.state.View.{view, Well};
ghost use Rattle.device.specs.map.Views.{width_view, bytes_in};
ghost use Rattle.port.specs.write_cell.Writes.{Writes};

use crate::write_cell::Written;
use crate::{readers, writers};
use device::map::Width;
use device::state::PchPicState;

// What an access reads. It lies wholly inside the window, which ends at 2^64 - 1 at most.
#[tactic(auto, using(crate::proofs::readers::Bytes::word_read), unfolding(rules::specs::Access::read_at))]
pub fn read_register(state: PchPicState, width: Width, offset: usize) -> u64
    requires { offset + bytes_in (width_view width) ≤ 2 ^ 64 - 1 }
    ensures { result ≡ read_at (view state).core (width_view width) offset }
{
    match width {
        Width::Byte => u64::from(readers::read_byte(state, offset, 1)),
        Width::Word => u64::from(readers::read_split_bytes(state, offset, 2, 2)),
        Width::Dword => u64::from(readers::read_dword(state, offset, 2)),
        Width::Qword => read_qword(state, offset),
    }
}

// Dword and then Dword.
fn read_qword(state: PchPicState, offset: usize) -> u64
    requires { offset + 8 ≤ 2 ^ 64 - 1 }
    ensures { result ≡ read_at (view state).core qword offset }
{
    let low = readers::read_dword(state, offset, 2);
    let high = readers::read_dword(state, offset + 4, 2);
    u64::from(low) | (u64::from(high) << 32)
}

// What an access writes; a value loses its bits above the width.
pub fn write_register(state: PchPicState, width: Width, offset: usize, val: u64) -> Written
    requires { Well state × (offset + bytes_in (width_view width) ≤ 2 ^ 64 - 1) }
    ensures { Writes result (view state) (write_acts (view state).core (width_view width) offset val) }
{
    let low = bits::half(val, false);
    match width {
        Width::Byte => writers::write_byte(state, offset, bits::byte_of(low, 0), 1),
        Width::Word => writers::write_split_bytes(state, offset, 2, low, 2),
        Width::Dword => writers::write_dword(state, offset, low, 2),
        Width::Qword => write_qword(state, offset, val),
    }
}

// Dword and then Dword, which meets what the first left.
fn write_qword(state: PchPicState, offset: usize, val: u64) -> Written
    requires { Well state × (offset + 8 ≤ 2 ^ 64 - 1) }
    ensures { Writes result (view state) (write_acts (view state).core qword offset val) }
{
    let first = writers::write_dword(state, offset, bits::half(val, false), 2);
    let second = writers::write_dword(first.state, offset + 4, bits::half(val, true), 2);
    Written {
        state: second.state,
        dropped: first.dropped + second.dropped,
    }
}
