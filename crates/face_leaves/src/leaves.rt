// Conversions to and from the integer register, by the number of a type, and the aligned address.
ghost use Rattle.std.specs.Prelude.{◌≡◌};
ghost use Rattle.regs.specs.Align.{aligned};
ghost use Rattle.face_leaves.specs.Types.{register_for, number_for};
ghost use Rattle.face_leaves.specs.Addresses.{aligned_told};

use regs::{InRegister, align_relative_to};

// The types of numbers; any other is taken as u64.
const U8: u64 = 1;

const U16: u64 = 2;

const U32: u64 = 3;

const I8: u64 = 5;

const I16: u64 = 6;

const I32: u64 = 7;

const I64: u64 = 8;

const BOOL: u64 = 9;

#[repr(C)]
#[derive(Clone, Copy)]
pub struct CAligned {
    pub number: u64,
    pub address: u64,
}

// The register of a number. Types: 1 to 4 u8, u16, u32, u64; 5 to 8 i8, i16, i32, i64; 9 bool; any other is taken as u64. The number's low bits count.
// The kinds are numbers, as they cross to C.
#[tactic(auto, using(choice::proofs::Choices::choices), unfolding(crate::specs::Types::register_for))]
pub fn cattlecleat_to_register(kind: u64, number: u64) -> u64
    ensures { result ≡ register_for kind number }
{
    match kind {
        U8 => register_of::<u8>(number),
        U16 => register_of::<u16>(number),
        U32 => register_of::<u32>(number),
        I8 => register_of::<i8>(number),
        I16 => register_of::<i16>(number),
        I32 => register_of::<i32>(number),
        I64 => register_of::<i64>(number),
        BOOL => register_of::<bool>(number),
        _ => register_of::<u64>(number),
    }
}

// The number of a register, by the same types; a signed one has its sign in all 64 bits.
#[tactic(auto, using(choice::proofs::Choices::choices, crate::proofs::Signed::sign_extended), unfolding(crate::specs::Types::number_for, choice::specs::Choose::choose))]
pub fn cattlecleat_from_register(kind: u64, register: u64) -> u64
    ensures { result ≡ number_for kind register }
{
    match kind {
        U8 => register_of::<u8>(register),
        U16 => register_of::<u16>(register),
        U32 => register_of::<u32>(register),
        I8 => i64::from(i8::from_register(register)).into_register(),
        I16 => i64::from(i16::from_register(register)).into_register(),
        I32 => i64::from(i32::from_register(register)).into_register(),
        I64 => register_of::<i64>(register),
        BOOL => register_of::<bool>(register),
        _ => register_of::<u64>(register),
    }
}

// The register of the number of a type that these bits say.
fn register_of<T: InRegister>(bits: u64) -> u64
    ensures { result ≡ T.bits_in (T.read_from bits) }
{
    T::from_register(bits).into_register()
}

// Base plus the distance of ip from it, rounded up to a multiple of 8. 15.
pub fn cattlecleat_align(ip: u64, base: u64) -> CAligned
    ensures { result ≡ aligned_told (aligned ip base) }
{
    match align_relative_to(ip, base) {
        Ok(address) => CAligned { number: 0, address },
        Err(refusal) => CAligned {
            number: refusal.into(),
            address: 0,
        },
    }
}
