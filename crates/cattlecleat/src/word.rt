// The sub-command: the program's first argument. With none it replays.
use std::env::{Env, FillError};

// Three ways to go on, none of them an error.
#[derive(Clone, Copy)]
pub enum Word {
    Replay,
    Help,
    Unknown,
}

// An argument that is longer than the buffer is no word.
pub fn asked(rt: &impl Env) -> Word {
    let mut text = [0u8; 8];
    match rt.arg(1, &mut text) {
        Err(FillError::NotPresent) => Word::Replay,
        Err(FillError::TooLong) => Word::Unknown,
        Ok(n) => word_of(&text[..n]),
    }
}

fn word_of(text: &[u8]) -> Word {
    match text {
        b"replay" => Word::Replay,
        b"help" => Word::Help,
        _ => Word::Unknown,
    }
}
