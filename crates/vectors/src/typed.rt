// Conversions by the types of numbers themselves, which no C host reaches. Types are numbered as the C face has them.
use regs::InRegister;

// The register of a number, which is cut to its type first.
pub fn register_of(kind: u64, n: u64) -> u64 {
    match kind {
        1 => cut_to::<u8>(n),
        2 => cut_to::<u16>(n),
        3 => cut_to::<u32>(n),
        5 => cut_to::<i8>(n),
        6 => cut_to::<i16>(n),
        7 => cut_to::<i32>(n),
        8 => cut_to::<i64>(n),
        9 => cut_to::<bool>(n),
        _ => cut_to::<u64>(n),
    }
}

fn cut_to<T: InRegister>(n: u64) -> u64 {
    T::from_register(n).into_register()
}

// The number of a register, a signed one with its sign in all 64 bits.
pub fn number_of(kind: u64, r: u64) -> u64 {
    match kind {
        1 => u8::from_register(r) as u64,
        2 => u16::from_register(r) as u64,
        3 => u32::from_register(r) as u64,
        5 => (i8::from_register(r) as i64).into_register(),
        6 => (i16::from_register(r) as i64).into_register(),
        7 => (i32::from_register(r) as i64).into_register(),
        8 => cut_to::<i64>(r),
        9 => bool::from_register(r) as u64,
        _ => u64::from_register(r),
    }
}
