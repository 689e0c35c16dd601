// A line by its word: something laid down, something on the trace's bytes, a leaf, or something asked of a stack.
use crate::asking::{asked_by_kind, asked_in_full, asked_in_record, lent, opened, synced};
use crate::leaves::{aligned, filled, from_register, taken, to_register};
use crate::taping::{fed, finished};
use crate::tracing::{read, replayed, written};
use crate::words::Word;
use std::rt::Env;
use vector_text::fault::LineError;
use vector_text::run::Run;
use vector_text::tokens::token;

pub fn run_line<R: Env + Print>(run: &mut Run<R>, tokens: &[u64]) -> Result<(), LineError> {
    match Word::try_from(token(tokens, 0))? {
        Word::Full => run.tell(tokens, true)?,
        Word::Sums => run.tell(tokens, false)?,
        Word::State => run.lay_state(tokens)?,
        Word::Word => run.lay_word(tokens)?,
        Word::Cell => run.lay_cell(tokens)?,
        Word::Trace => run.lay_record(tokens)?,
        Word::Byte => run.lay_byte(tokens)?,
        Word::Tape => run.lay_tape(tokens)?,
        Word::Read => read(run, tokens)?,
        Word::Write => written(run, tokens)?,
        Word::Into => to_register(run, tokens)?,
        Word::From => from_register(run, tokens)?,
        Word::Align => aligned(run, tokens)?,
        Word::Fill => filled(run, tokens)?,
        Word::Take => taken(run, tokens)?,
        Word::Open => opened(run, tokens)?,
        Word::Ask => asked_in_full(run, tokens)?,
        Word::Record => asked_in_record(run, tokens)?,
        Word::Regs => synced(run, tokens)?,
        Word::Part => lent(run, tokens)?,
        Word::Replay => replayed(run, tokens)?,
        Word::Feed => fed(run, tokens)?,
        Word::Finish => finished(run, tokens)?,
        Word::Request(kind) => asked_by_kind(run, tokens, kind)?,
    }
    Ok(())
}
