// Sync, restore, reset and set as kinds of a trace.
#![tactic(auto, unfolding(request::specs::Requests::request_in, choice::specs::Choose::choose))]

ghost use Rattle.rules.specs.declared.Request.TheVariants.{Sync, Restore, Reset, Set};

use crate::cost::ONE;
use crate::kind::Kind;
use record::{KindRow, RESET_ROW, RESTORE_ROW, Record, SET_ROW, SYNC_ROW};
use rules::{Outcome, Refusal, Room, State};
use stack::{
    judge_reset, judge_restore, judge_set, judge_sync, step_reset, step_restore, step_set,
    step_sync,
};

#[derive(Clone, Copy)]
pub(crate) struct SyncArgs {
    pub ip: u64,
}

impl Kind for SyncArgs {
    ghost number = { 6 };

    ghost says = { λ q. Sync q.ip };

    fn row() -> KindRow {
        SYNC_ROW
    }

    fn read(r: Record) -> SyncArgs {
        SyncArgs { ip: r.word1 }
    }

    fn judge(self, s: State, words: &[u64], cells: &[u64]) -> Result<Room, Refusal> {
        judge_sync(s, words, cells)
    }

    fn cost(self) -> u64 {
        ONE
    }

    fn step(self, s: State, words: &mut [u64], cells: &mut [u64], room: Room) -> Outcome {
        step_sync(s, words, cells, self.ip, room)
    }
}

#[derive(Clone, Copy)]
pub(crate) struct RestoreArgs;

impl Kind for RestoreArgs {
    ghost number = { 7 };

    ghost says = { λ q. Restore };

    fn row() -> KindRow {
        RESTORE_ROW
    }

    fn read(_r: Record) -> RestoreArgs {
        RestoreArgs
    }

    fn judge(self, s: State, words: &[u64], cells: &[u64]) -> Result<Room, Refusal> {
        judge_restore(s, words, cells)
    }

    fn cost(self) -> u64 {
        ONE
    }

    fn step(self, s: State, words: &mut [u64], cells: &mut [u64], room: Room) -> Outcome {
        step_restore(s, words, cells, room)
    }
}

#[derive(Clone, Copy)]
pub(crate) struct ResetArgs;

impl Kind for ResetArgs {
    ghost number = { 8 };

    ghost says = { λ q. Reset };

    fn row() -> KindRow {
        RESET_ROW
    }

    fn read(_r: Record) -> ResetArgs {
        ResetArgs
    }

    fn judge(self, s: State, words: &[u64], cells: &[u64]) -> Result<Room, Refusal> {
        judge_reset(s, words, cells)
    }

    fn cost(self) -> u64 {
        ONE
    }

    fn step(self, s: State, words: &mut [u64], cells: &mut [u64], _room: Room) -> Outcome {
        step_reset(s, words, cells)
    }
}

#[derive(Clone, Copy)]
pub(crate) struct SetArgs {
    pub head: u16,
    pub cell: u64,
}

impl Kind for SetArgs {
    ghost number = { 9 };

    ghost says = { λ q. Set q.head q.cell };

    fn row() -> KindRow {
        SET_ROW
    }

    fn read(r: Record) -> SetArgs {
        SetArgs {
            head: r.head,
            cell: r.word2,
        }
    }

    fn judge(self, s: State, words: &[u64], cells: &[u64]) -> Result<Room, Refusal> {
        judge_set(s, words, cells, self.head)
    }

    fn cost(self) -> u64 {
        ONE
    }

    fn step(self, s: State, words: &mut [u64], cells: &mut [u64], room: Room) -> Outcome {
        step_set(s, words, cells, self.cell, room)
    }
}
