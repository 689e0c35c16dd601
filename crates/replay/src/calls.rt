// Push, pop and replace as kinds of a trace.
#![tactic(auto, unfolding(request::specs::Requests::request_in, choice::specs::Choose::choose))]

ghost use Rattle.rules.specs.declared.Request.TheVariants.{Push, Pop, Replace};

use crate::cost::ONE;
use crate::kind::Kind;
use record::{KindRow, POP_ROW, PUSH_ROW, REPLACE_ROW, Record};
use request::{push_in, replace_in};
use rules::{Outcome, PushArgs, Refusal, ReplaceArgs, Room, State};
use stack_calls::{judge_pop, judge_push, judge_replace, step_pop, step_push, step_replace};

impl Kind for PushArgs {
    ghost number = { 1 };

    ghost says = { Push };

    fn row() -> KindRow {
        PUSH_ROW
    }

    fn read(r: Record) -> PushArgs {
        push_in(r)
    }

    fn judge(self, s: State, words: &[u64], cells: &[u64]) -> Result<Room, Refusal> {
        judge_push(s, words, cells, self)
    }

    // The locals behind the parameters are zeroed.
    fn cost(self) -> u64 {
        ONE + self.locals.saturating_sub(self.params) as u64
    }

    fn step(self, s: State, words: &mut [u64], cells: &mut [u64], room: Room) -> Outcome {
        step_push(s, words, cells, self, room)
    }
}

#[derive(Clone, Copy)]
pub(crate) struct PopArgs {
    pub instance: u64,
}

impl Kind for PopArgs {
    ghost number = { 2 };

    ghost says = { λ q. Pop q.instance };

    fn row() -> KindRow {
        POP_ROW
    }

    fn read(r: Record) -> PopArgs {
        PopArgs { instance: r.word3 }
    }

    fn judge(self, s: State, words: &[u64], cells: &[u64]) -> Result<Room, Refusal> {
        judge_pop(s, words, cells)
    }

    fn cost(self) -> u64 {
        ONE
    }

    fn step(self, s: State, words: &mut [u64], cells: &mut [u64], room: Room) -> Outcome {
        step_pop(s, words, cells, self.instance, room)
    }
}

impl Kind for ReplaceArgs {
    ghost number = { 3 };

    ghost says = { Replace };

    fn row() -> KindRow {
        REPLACE_ROW
    }

    fn read(r: Record) -> ReplaceArgs {
        replace_in(r)
    }

    fn judge(self, s: State, words: &[u64], cells: &[u64]) -> Result<Room, Refusal> {
        judge_replace(s, words, cells, self)
    }

    // The parameters are copied, and the locals behind them zeroed.
    fn cost(self) -> u64 {
        ONE + self.locals as u64
    }

    fn step(self, s: State, words: &mut [u64], cells: &mut [u64], room: Room) -> Outcome {
        step_replace(s, words, cells, self, room)
    }
}
