// Small answers: document 01's number, and of what requests hand back only what this one does. Registers are where they are, in the state.
ghost use Rattle.std.specs.Prelude.{◌≡◌};
ghost use Rattle.rules.specs.Answers.{shown_answer, host_values, no_values, shown_of};
ghost use Rattle.face_place.specs.Placed.{offset_told, frame_told, hosted_told, returned_told};

use cells::HostFrame;
use rules::{Refusal, Reply};
use stack::{answer_number, answer_offset, no_host};

// Two registers of the machine.
#[repr(C)]
#[derive(Clone, Copy)]
pub struct COffset {
    pub number: u64,
    pub offset: usize,
}

// A frame to go on with: its start, its ip, and the instance to wake.
#[repr(C)]
#[derive(Clone, Copy)]
pub struct CFrame {
    pub number: u64,
    pub offset: usize,
    pub ip: u64,
    pub instance: u64,
}

// A host's frame over the newest one.
#[repr(C)]
#[derive(Clone, Copy)]
pub struct CHosted {
    pub number: u64,
    pub offset: usize,
    pub host: HostFrame,
}

// A host's frame in place of the newest one, and the frame below.
#[repr(C)]
#[derive(Clone, Copy)]
pub struct CReturned {
    pub number: u64,
    pub offset: usize,
    pub ip: u64,
    pub instance: u64,
    pub host: HostFrame,
}

// Four functions, no From: an impl would be public, a promise and a lemma more each, where only this crate tells answers so.
pub(crate) fn offset_told(answer: Result<Reply, Refusal>) -> COffset
    ensures { result ≡ offset_told (shown_answer answer) }
{
    COffset {
        number: answer_number(answer),
        offset: answer_offset(answer),
    }
}

pub(crate) fn frame_told(answer: Result<Reply, Refusal>) -> CFrame
    ensures { result ≡ frame_told (shown_answer answer) }
{
    match answer {
        Err(why) => no_frame(u64::from(why)),
        Ok(Reply::Gone(_)) => no_frame(1),
        Ok(Reply::Done(values)) => CFrame {
            number: 0,
            offset: values.offset,
            ip: values.ip,
            instance: values.instance,
        },
    }
}

fn no_frame(number: u64) -> CFrame
    ensures { result ≡ frame_told (shown_of number no_values) }
{
    CFrame {
        number,
        offset: 0,
        ip: 0,
        instance: 0,
    }
}

pub(crate) fn hosted_told(answer: Result<Reply, Refusal>) -> CHosted
    ensures { result ≡ hosted_told (shown_answer answer) }
{
    match answer {
        Err(why) => CHosted {
            number: u64::from(why),
            offset: 0,
            host: no_host(),
        },
        Ok(Reply::Gone(host)) => CHosted {
            number: 1,
            offset: 0,
            host,
        },
        Ok(Reply::Done(values)) => {
            let host = values.host;
            CHosted {
                number: 0,
                offset: values.offset,
                host,
            }
        }
    }
}

pub(crate) fn returned_told(answer: Result<Reply, Refusal>) -> CReturned
    ensures { result ≡ returned_told (shown_answer answer) }
{
    match answer {
        Err(why) => host_alone(u64::from(why), no_host()),
        Ok(Reply::Gone(host)) => host_alone(1, host),
        Ok(Reply::Done(values)) => {
            let host = values.host;
            CReturned {
                number: 0,
                offset: values.offset,
                ip: values.ip,
                instance: values.instance,
                host,
            }
        }
    }
}

fn host_alone(number: u64, host: HostFrame) -> CReturned
    ensures { result ≡ returned_told (shown_of number (host_values 0 host)) }
{
    CReturned {
        number,
        offset: 0,
        ip: 0,
        instance: 0,
        host,
    }
}
