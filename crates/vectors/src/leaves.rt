// What stands on no stack: conversions, the aligned address and the done slot.
use crate::told::done_told;
use crate::typed::{number_of, register_of};
use face_leaves::{
    CReason, cattlecleat_align, cattlecleat_done_with, cattlecleat_from_register,
    cattlecleat_take_done_reason, cattlecleat_to_register,
};
use std::rt::Env;
use vector_text::fault::LineError;
use vector_text::run::Run;
use vector_text::tokens::token;

const DONE: [&str; 5] = ["number", "reason", "amount", "slot", "holds"];

// What the face says, and what the type's own function does.
pub fn to_register<R: Env + Print>(run: &mut Run<R>, tokens: &[u64]) -> Result<(), LineError> {
    let kind = token(tokens, 1);
    let number = token(tokens, 2);
    let both = [
        cattlecleat_to_register(kind, number),
        register_of(kind, number),
    ];
    run.hold(tokens, 2, &["register", "by type"], &both)
}

pub fn from_register<R: Env + Print>(run: &mut Run<R>, tokens: &[u64]) -> Result<(), LineError> {
    let kind = token(tokens, 1);
    let register = token(tokens, 2);
    let both = [
        cattlecleat_from_register(kind, register),
        number_of(kind, register),
    ];
    run.hold(tokens, 2, &["number", "by type"], &both)
}

pub fn aligned<R: Env + Print>(run: &mut Run<R>, tokens: &[u64]) -> Result<(), LineError> {
    let a = cattlecleat_align(token(tokens, 1), token(tokens, 2));
    run.hold(tokens, 2, &["number", "address"], &[a.number, a.address])
}

pub fn filled<R: Env + Print>(run: &mut Run<R>, tokens: &[u64]) -> Result<(), LineError> {
    let done = cattlecleat_done_with(reason_in(tokens, 1), reason_in(tokens, 3));
    run.hold(tokens, 4, &DONE, &done_told(done))
}

pub fn taken<R: Env + Print>(run: &mut Run<R>, tokens: &[u64]) -> Result<(), LineError> {
    let done = cattlecleat_take_done_reason(reason_in(tokens, 1));
    run.hold(tokens, 2, &DONE, &done_told(done))
}

fn reason_in(tokens: &[u64], at: usize) -> CReason {
    CReason {
        kind: token(tokens, at),
        amount: token(tokens, at.wrapping_add(1)),
    }
}
