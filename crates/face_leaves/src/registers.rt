// A state's registers read, and registers in place, in the record that a host lends: each function changes what it names and keeps the rest; none refuses.
ghost use Rattle.std.specs.Prelude.{◌≡◌};
ghost use Rattle.regs.specs.Registers.{zero_registers, registers_of, with_ireg, with_freg32, with_freg64};
ghost use Rattle.face.specs.States.{registers_in};

use face::CState;
use regs::Registers;

// The registers of a state, bit for bit.
pub fn cattlecleat_read_registers(s: CState) -> Registers
    ensures { result ≡ registers_in s }
{
    s.regs
}

// Stores the integer register.
pub fn cattlecleat_put_ireg(r: &mut Registers, v: u64)
    ensures { r.new ≡ with_ireg r.old v }
{
    *r = Registers::with_ireg(*r, v);
}

// Stores the f32 register.
pub fn cattlecleat_put_freg32(r: &mut Registers, v: f32)
    ensures { r.new ≡ with_freg32 r.old v }
{
    *r = Registers::with_freg32(*r, v);
}

// Stores the f64 register.
pub fn cattlecleat_put_freg64(r: &mut Registers, v: f64)
    ensures { r.new ≡ with_freg64 r.old v }
{
    *r = Registers::with_freg64(*r, v);
}

// Stores all three.
pub fn cattlecleat_put_registers(r: &mut Registers, ireg: u64, freg32: f32, freg64: f64)
    ensures { r.new ≡ registers_of ireg freg32 freg64 }
{
    *r = Registers::stored(ireg, freg32, freg64);
}

// Zeroes all three: every bit is 0.
pub fn cattlecleat_zero_registers(r: &mut Registers)
    ensures { r.new ≡ zero_registers }
{
    *r = Registers::zeroed();
}
