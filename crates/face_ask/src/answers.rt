// An answer as numbers: document 01's number, every value that some request hands back, and the state after it.
ghost use Rattle.std.specs.Prelude.{◌≡◌, Ok};
ghost use Rattle.rules.specs.Answers.{host_values, shown_answer};
ghost use Rattle.face_ask.specs.Told.{answer_with, answer_told};

use cells::HostFrame;
use face::CState;
use regs::Registers;
use rules::{Outcome, Reply, Values};
use stack::no_host;

#[repr(C)]
#[derive(Clone, Copy)]
pub struct CAnswer {
    pub number: u64,
    pub offset: usize,
    pub ip: u64,
    pub instance: u64,
    pub host: HostFrame,
    pub regs: Registers,
    pub state: CState,
}

// A refusal hands the numbers of the state back as they came.
// Of an answer and the state that came, so no From.
pub(crate) fn outcome_told(out: Outcome, came: CState) -> CAnswer
    ensures { result ≡ answer_told came (shown_answer out.answer) out.state }
{
    let s = out.state;
    let answer = out.answer;
    match answer {
        Err(why) => host_told(u64::from(why), no_host(), came),
        Ok(reply) => reply_told(reply, CState::from(s)),
    }
}

fn reply_told(reply: Reply, state: CState) -> CAnswer
    ensures { result ≡ answer_with (shown_answer (Ok reply)).number (shown_answer (Ok reply)).values state }
{
    match reply {
        Reply::Gone(host) => host_told(1, host, state),
        Reply::Done(values) => values_told(0, values, state),
    }
}

// No more than a number and a host frame.
pub(crate) fn host_told(number: u64, host: HostFrame, state: CState) -> CAnswer
    ensures { result ≡ answer_with number (host_values 0 host) state }
{
    values_told(
        number,
        Values {
            offset: 0,
            ip: 0,
            instance: 0,
            host,
            regs: Registers::zeroed(),
        },
        state,
    )
}

fn values_told(number: u64, values: Values, state: CState) -> CAnswer
    ensures { result ≡ answer_with number values state }
{
    let host = values.host;
    let regs = values.regs;
    CAnswer {
        number,
        offset: values.offset,
        ip: values.ip,
        instance: values.instance,
        host,
        regs,
        state,
    }
}
