// Bytes laid down and told again, eight to a number, in the order in which they stand in the text.
use crate::tokens::token;

pub const RECORD_BYTES: usize = 40;

// The forty bytes of a record, by five numbers from a place on.
pub fn record_in(tokens: &[u64], from: usize) -> [u8; RECORD_BYTES] {
    let mut record = [0u8; RECORD_BYTES];
    for (i, word) in record.chunks_exact_mut(8).enumerate() {
        word.copy_from_slice(&token(tokens, from.wrapping_add(i)).to_be_bytes());
    }
    record
}

// The first N numbers of bytes, 0 beyond the end.
pub fn words_in<const N: usize>(bytes: &[u8]) -> [u64; N] {
    let mut words = [0u64; N];
    for (i, word) in words.iter_mut().enumerate() {
        *word = word_at(bytes, i.wrapping_mul(8));
    }
    words
}

fn word_at(bytes: &[u8], at: usize) -> u64 {
    let mut word = [0u8; 8];
    for (i, byte) in word.iter_mut().enumerate() {
        *byte = byte_at(bytes, at.wrapping_add(i));
    }
    u64::from_be_bytes(word)
}

fn byte_at(bytes: &[u8], at: usize) -> u8 {
    match bytes.get(at) {
        Some(byte) => *byte,
        None => 0,
    }
}
