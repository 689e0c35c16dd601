// A module of the archive that a host in C or Rust links: registers, aligned addresses, the done slot and single records. Each function is face_leaves',
// under its own name, with the clauses that it has there, and a body that is one call of it. include/cattlecleat.h says what each means.
#![tactic(auto)]

ghost use Rattle.std.specs.Prelude.{◌≡◌};
ghost use Rattle.regs.specs.Align.{aligned};
ghost use Rattle.face_leaves.specs.Types.{register_for, number_for};
ghost use Rattle.face_leaves.specs.Addresses.{aligned_told};
ghost use Rattle.done.specs.Done.{filled, taken};
ghost use Rattle.face_leaves.specs.Slots.{reason_said, slot_said, filled_told, taken_told};
ghost use Rattle.regs.specs.Registers.{zero_registers, registers_of, with_ireg, with_freg32, with_freg64};
ghost use Rattle.face.specs.States.{registers_in};
ghost use Rattle.record.specs.Reading.{read_at, write_number};
ghost use Rattle.face_leaves.specs.Records.{read_told, written_by};

use face::{CRequest, CState};
use face_leaves::{CAligned, CDone, CRead, CReason};
use regs::Registers;

// The register of a number. Types: 1 to 4 u8, u16, u32, u64; 5 to 8 i8, i16, i32, i64; 9 bool; any other is taken as u64. The number's low bits count,
// a signed one's as an unsigned one's.
#[unsafe(no_mangle)]
pub extern "C" fn cattlecleat_to_register(kind: u64, number: u64) -> u64
    ensures { result ≡ register_for kind number }
{
    face_leaves::cattlecleat_to_register(kind, number)
}

// The number of a register, by the same types; a signed one has its sign in all 64 bits.
#[unsafe(no_mangle)]
pub extern "C" fn cattlecleat_from_register(kind: u64, register: u64) -> u64
    ensures { result ≡ number_for kind register }
{
    face_leaves::cattlecleat_from_register(kind, register)
}

// Base plus the distance of ip from it, rounded up to a multiple of 8. 15.
#[unsafe(no_mangle)]
pub extern "C" fn cattlecleat_align(ip: u64, base: u64) -> CAligned
    ensures { result ≡ aligned_told (aligned ip base) }
{
    face_leaves::cattlecleat_align(ip, base)
}

// Fills a slot. 12: the reason in it stays.
#[unsafe(no_mangle)]
pub extern "C" fn cattlecleat_done_with(slot: CReason, reason: CReason) -> CDone
    ensures { result ≡ filled_told slot (filled (slot_said slot) (reason_said reason)) }
{
    face_leaves::cattlecleat_done_with(slot, reason)
}

// Takes the reason out of a slot. 13.
#[unsafe(no_mangle)]
pub extern "C" fn cattlecleat_take_done_reason(slot: CReason) -> CDone
    ensures { result ≡ taken_told slot (taken (slot_said slot)) }
{
    face_leaves::cattlecleat_take_done_reason(slot)
}

// The registers of a state, bit for bit.
#[unsafe(no_mangle)]
pub extern "C" fn cattlecleat_read_registers(s: CState) -> Registers
    ensures { result ≡ registers_in s }
{
    face_leaves::cattlecleat_read_registers(s)
}

// Stores the integer register.
#[unsafe(no_mangle)]
pub extern "C" fn cattlecleat_put_ireg(r: &mut Registers, v: u64)
    ensures { r.new ≡ with_ireg r.old v }
{
    face_leaves::cattlecleat_put_ireg(r, v)
}

// Stores the f32 register.
#[unsafe(no_mangle)]
pub extern "C" fn cattlecleat_put_freg32(r: &mut Registers, v: f32)
    ensures { r.new ≡ with_freg32 r.old v }
{
    face_leaves::cattlecleat_put_freg32(r, v)
}

// Stores the f64 register.
#[unsafe(no_mangle)]
pub extern "C" fn cattlecleat_put_freg64(r: &mut Registers, v: f64)
    ensures { r.new ≡ with_freg64 r.old v }
{
    face_leaves::cattlecleat_put_freg64(r, v)
}

// Stores all three.
#[unsafe(no_mangle)]
pub extern "C" fn cattlecleat_put_registers(r: &mut Registers, ireg: u64, freg32: f32, freg64: f64)
    ensures { r.new ≡ registers_of ireg freg32 freg64 }
{
    face_leaves::cattlecleat_put_registers(r, ireg, freg32, freg64)
}

// Zeroes all three: every bit is 0.
#[unsafe(no_mangle)]
pub extern "C" fn cattlecleat_zero_registers(r: &mut Registers)
    ensures { r.new ≡ zero_registers }
{
    face_leaves::cattlecleat_zero_registers(r)
}

// The request of the record at a place. 10 where it breaks the rules of its kind, or fewer than 40 bytes are left.
#[unsafe(no_mangle)]
pub extern "C" fn cattlecleat_read_record(bytes: &[u8], at: usize) -> CRead
    ensures { result ≡ read_told (read_at bytes.now at) }
{
    face_leaves::cattlecleat_read_record(bytes, at)
}

// Writes the record that the numbers spell at a place: 0. 10, with no byte changed, where it breaks the rules of its kind or fewer than 40 bytes are left.
#[unsafe(no_mangle)]
pub extern "C" fn cattlecleat_write_record(bytes: &mut [u8], at: usize, q: CRequest) -> u64
    ensures { write_number result bytes.new ≡ written_by bytes.old at q }
{
    face_leaves::cattlecleat_write_record(bytes, at, q)
}
