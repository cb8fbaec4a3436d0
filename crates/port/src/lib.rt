// The port of loongarch_pch_pic.rs of axdevice 0.8.5, function by function. The modules stand in the Rust's order; beside each, its functions with their lines in
// that file. The state and the register map are in crate `device`, replace_u32 (688) in `bits`; what is checked before a call and told after it is the fronts' own.
// set_irq_level 156, pending_vector 177, update_irq 560
#![tactic(auto)]

pub mod irq_level;
// drain_output_events 187
pub mod drain_output;
// read_register 213, write_register 234
pub mod by_width;
// read_byte 452, read_split_bytes 494, read_dword 508
pub mod readers;
// write_byte 469, write_split_bytes 502, write_dword 535
pub mod writers;
// what read_byte and read_dword give once the register is found, 452 and 508
pub mod read_cell;
// what write_byte and write_dword store once the register is found, 469 and 535
pub mod write_cell;
// clear_irq 603, update_int_mask 611
pub mod mask_and_clear;
// queue_events_for_mask 650
pub mod events_for_mask;
// push_output_event 664
pub mod push;
// pop_output_event 677
pub mod pop;
