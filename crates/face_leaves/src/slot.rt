// The done slot as numbers. A reason: 1 returned (offset), 2 host error, 3 out of fuel (amount needed), any other number is an error. A slot is a reason,
// or 0: empty.
ghost use Rattle.std.specs.Prelude.{◌≡◌};
ghost use Rattle.done.specs.Done.{filled, taken};
ghost use Rattle.face_leaves.specs.Slots.{reason_said, reason_to, slot_said, slot_to, filled_told, taken_told};

use done::{DoneReason, DoneSlot};

#[repr(C)]
#[derive(Clone, Copy)]
pub struct CReason {
    pub kind: u64,
    pub amount: u64,
}

#[repr(C)]
#[derive(Clone, Copy)]
pub struct CDone {
    pub number: u64,
    pub reason: CReason,
    pub slot: CReason,
}

// The kinds of reasons; a slot of kind 0 is empty.
const RETURNED: u64 = 1;

const HOST_ERROR: u64 = 2;

const OUT_OF_FUEL: u64 = 3;

const ERROR: u64 = 4;

const NONE: CReason = CReason { kind: 0, amount: 0 };

// Fills a slot. 12: the reason in it stays. A refusal hands the slot back as it came.
pub fn cattlecleat_done_with(slot: CReason, reason: CReason) -> CDone
    ensures { result ≡ filled_told slot (filled (slot_said slot) (reason_said reason)) }
{
    let (answer, held) = DoneSlot::from(slot).done_with(DoneReason::from(reason));
    match answer {
        Ok(()) => CDone {
            number: 0,
            reason: NONE,
            slot: CReason::from(held),
        },
        Err(refusal) => CDone {
            number: u64::from(refusal),
            reason: NONE,
            slot,
        },
    }
}

// Takes the reason out of a slot. 13.
pub fn cattlecleat_take_done_reason(slot: CReason) -> CDone
    ensures { result ≡ taken_told slot (taken (slot_said slot)) }
{
    let (answer, held) = DoneSlot::from(slot).take_done_reason();
    match answer {
        Ok(reason) => CDone {
            number: 0,
            reason: CReason::from(reason),
            slot: CReason::from(held),
        },
        Err(refusal) => CDone {
            number: u64::from(refusal),
            reason: NONE,
            slot,
        },
    }
}

impl From<CReason> for DoneReason {
    ghost from_gives = { λ c r. r ≡ reason_said c };

    fn from(c: CReason) -> DoneReason {
        let kind = c.kind;
        match kind {
            RETURNED => DoneReason::Returned(c.amount),
            HOST_ERROR => DoneReason::HostError,
            OUT_OF_FUEL => DoneReason::OutOfFuel(c.amount),
            _ => DoneReason::Error,
        }
    }
}

impl From<DoneReason> for CReason {
    ghost from_gives = { λ r c. c ≡ reason_to r };

    fn from(reason: DoneReason) -> CReason {
        match reason {
            DoneReason::Returned(offset) => CReason {
                kind: RETURNED,
                amount: offset,
            },
            DoneReason::HostError => CReason {
                kind: HOST_ERROR,
                amount: 0,
            },
            DoneReason::OutOfFuel(needed) => CReason {
                kind: OUT_OF_FUEL,
                amount: needed,
            },
            DoneReason::Error => CReason {
                kind: ERROR,
                amount: 0,
            },
        }
    }
}

impl From<CReason> for DoneSlot {
    ghost from_gives = { λ c s. s ≡ slot_said c };

    fn from(c: CReason) -> DoneSlot {
        DoneSlot {
            reason: (c.kind != 0).then_some(DoneReason::from(c)),
        }
    }
}

impl From<DoneSlot> for CReason {
    ghost from_gives = { λ s c. c ≡ slot_to s };

    fn from(slot: DoneSlot) -> CReason {
        match slot.reason {
            None => NONE,
            Some(reason) => CReason::from(reason),
        }
    }
}
