// The state in place: its words as they lie, depth, height, words, cells, count, `len`, the flag of the current instance and the instance; behind them
// the registers in three more. What a request does not change it does not write, and a refusal writes nothing.
ghost use Rattle.std.specs.Prelude.{◌≡◌};
ghost use Rattle.regs.specs.Registers.{zero_registers};
ghost use Rattle.rules.specs.Answers.{shown_answer};
ghost use Rattle.face_place.specs.Held.{state_held, none_held, moved_put, unless_refused, len_put, registers_laid, emptied_put};

use regs::{InRegister, Registers};
use rules::{Refusal, Reply, State};

// The state that the words say. The registers lie behind them: no request looks at them, and zeros stand in their place.
pub(crate) fn state_held(state: &[u64; 8]) -> State
    ensures { result ≡ state_held state.now zero_registers }
{
    let [depth, height, words, cells, count, len, flag, current] = *state;
    State {
        depth: depth as usize,
        height: height as usize,
        words: words as usize,
        cells: cells as usize,
        count: count as usize,
        len: len as usize,
        current: bool::from_register(flag).then_some(current),
        regs: Registers::zeroed(),
    }
}

// The same of a state that is lent with its registers.
pub(crate) fn whole_held(state: &[u64; 11]) -> State
    ensures { result ≡ state_held state.now zero_registers }
{
    let [depth, height, words, cells, count, len, flag, current, ..] = *state;
    state_held(&[depth, height, words, cells, count, len, flag, current])
}

// After a request that can move all of it.
// The words of the state are lent as they lie in C.
#[tactic(auto, using(crate::proofs::Placing::refused_stays, crate::proofs::Placing::done_moves))]
pub(crate) fn move_state(state: &mut [u64; 8], answer: Result<Reply, Refusal>, s: State)
    ensures { state.new ≡ unless_refused (shown_answer answer).number state.old (moved_put state.old s) }
{
    if answer.is_ok() {
        put_moved(state, s);
    }
}

// By a branch on the instance, so that the compiler stores what it has at hand: most stacks have one.
fn put_moved(state: &mut [u64; 8], s: State)
    ensures { state.new ≡ moved_put state.old s }
{
    let current = s.current;
    state[4] = s.count as u64;
    state[5] = s.len as u64;
    match current {
        None => put_none(state),
        Some(instance) => {
            state[6] = 1;
            state[7] = instance;
        }
    }
}

// No instance: where none was, the words stay as they came.
#[tactic(auto, using(choice::proofs::Choices::choices), unfolding(crate::specs::Held::none_held))]
fn put_none(state: &mut [u64; 8])
    ensures { state.new ≡ none_held state.old }
{
    if state[6] == 0 {
        return;
    }
    state[6] = 0;
    state[7] = 0;
}

// After a request that moves `len` alone.
#[tactic(auto, using(crate::proofs::Placing::refused_stays, crate::proofs::Placing::done_moves))]
pub(crate) fn move_len(state: &mut [u64; 8], answer: Result<Reply, Refusal>, s: State)
    ensures { state.new ≡ unless_refused (shown_answer answer).number state.old (len_put state.old s) }
{
    if answer.is_ok() {
        state[5] = s.len as u64;
    }
}

// After a reset: no frame, no instance, `len` and registers 0.
#[tactic(auto, using(crate::proofs::Placing::refused_stays, crate::proofs::Placing::done_moves))]
pub(crate) fn empty_state(state: &mut [u64; 11], answer: Result<Reply, Refusal>)
    ensures { state.new ≡ unless_refused (shown_answer answer).number state.old (emptied_put state.old) }
{
    if answer.is_ok() {
        state[4..].fill(0);
    }
}

// After a register sync: the registers as they lie, bit for bit. By value, so that the compiler asks not whether both lie apart.
pub(crate) fn put_registers(state: &mut [u64; 11], regs: &[u64; 3])
    ensures { state.new ≡ registers_laid state.old regs.now }
{
    let held = *regs;
    state[8..].copy_from_slice(&held);
}
