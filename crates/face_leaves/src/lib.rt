// The C face: what needs no lent stack. Conversions to and from a register, an aligned address, the done slot, registers in place, and single records.
#![tactic(auto)]

mod leaves;
mod records;
mod registers;
mod slot;

pub use leaves::{CAligned, cattlecleat_align, cattlecleat_from_register, cattlecleat_to_register};
pub use records::{CRead, cattlecleat_read_record, cattlecleat_write_record};
pub use registers::{
    cattlecleat_put_freg32, cattlecleat_put_freg64, cattlecleat_put_ireg,
    cattlecleat_put_registers, cattlecleat_read_registers, cattlecleat_zero_registers,
};
pub use slot::{CDone, CReason, cattlecleat_done_with, cattlecleat_take_done_reason};
