// Host and return-host as kinds of a trace.
#![tactic(auto, unfolding(request::specs::Requests::request_in, choice::specs::Choose::choose))]

ghost use Rattle.rules.specs.declared.Request.TheVariants.{Host, ReturnHost};

use crate::cost::ONE;
use crate::kind::Kind;
use record::{HOST_ROW, KindRow, RETURN_HOST_ROW, Record};
use request::{host_in, return_host_in};
use rules::{HostArgs, Outcome, Refusal, ReturnHostArgs, Room, State};
use stack_hosts::{judge_host, judge_return_host, step_host, step_return_host};

impl Kind for HostArgs {
    ghost number = { 4 };

    ghost says = { Host };

    fn row() -> KindRow {
        HOST_ROW
    }

    fn read(r: Record) -> HostArgs {
        host_in(r)
    }

    fn judge(self, s: State, words: &[u64], cells: &[u64]) -> Result<Room, Refusal> {
        judge_host(s, words, cells, self)
    }

    fn cost(self) -> u64 {
        ONE
    }

    fn step(self, s: State, words: &mut [u64], cells: &mut [u64], room: Room) -> Outcome {
        step_host(s, words, cells, self, room)
    }
}

impl Kind for ReturnHostArgs {
    ghost number = { 5 };

    ghost says = { ReturnHost };

    fn row() -> KindRow {
        RETURN_HOST_ROW
    }

    fn read(r: Record) -> ReturnHostArgs {
        return_host_in(r)
    }

    fn judge(self, s: State, words: &[u64], cells: &[u64]) -> Result<Room, Refusal> {
        judge_return_host(s, words, cells, self)
    }

    // The parameters are copied.
    fn cost(self) -> u64 {
        ONE + self.params as u64
    }

    fn step(self, s: State, words: &mut [u64], cells: &mut [u64], room: Room) -> Outcome {
        step_return_host(s, words, cells, self, room)
    }
}
