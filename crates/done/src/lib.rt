// The done slot: `done_with` and `take_done_reason` of the Rust's `ExecContext`. It holds at most one reason why an execution halted.
// Each call takes the slot and hands it back with the answer.
#![tactic(auto)]

ghost use Rattle.std.specs.Prelude.{◌≡◌, Err};
ghost use Rattle.done.specs.Done.{no_reason, fill_number, shown_fill, filled, take_number, shown_take, taken};

// Why an execution halted. The two errors carry no number.
#[derive(Clone, Copy)]
pub enum DoneReason {
    Returned(u64),
    HostError,
    OutOfFuel(u64),
    Error,
}

#[derive(Clone, Copy)]
pub struct DoneSlot {
    pub reason: Option<DoneReason>,
}

// The slot holds a reason already.
#[derive(Clone, Copy)]
pub struct AlreadyFilled;

impl From<AlreadyFilled> for u64 {
    ghost from_gives = { λ e number. number ≡ fill_number (Err e) };

    fn from(_refusal: AlreadyFilled) -> u64 {
        12
    }
}

// The slot holds no reason.
#[derive(Clone, Copy)]
pub struct NothingToTake;

impl From<NothingToTake> for u64 {
    ghost from_gives = { λ e number. number ≡ take_number (Err e) };

    fn from(_refusal: NothingToTake) -> u64 {
        13
    }
}

impl DoneSlot {
    // A slot without a reason.
    pub fn empty() -> DoneSlot
        ensures { result ≡ no_reason }
    {
        DoneSlot { reason: None }
    }

    // Halts with this reason. Refused (12) where the slot holds one already: that one stays.
    pub fn done_with(self, reason: DoneReason) -> (Result<(), AlreadyFilled>, DoneSlot)
        ensures { shown_fill result.0 result.1 ≡ filled self reason }
    {
        if self.reason.is_some() {
            return (Err(AlreadyFilled), self);
        }
        let slot = DoneSlot {
            reason: Some(reason),
        };
        (Ok(()), slot)
    }

    // Takes the reason out, and says which it was. Refused (13) where there is none.
    pub fn take_done_reason(self) -> (Result<DoneReason, NothingToTake>, DoneSlot)
        ensures { shown_take result.0 result.1 ≡ taken self }
    {
        (self.reason.ok_or(NothingToTake), DoneSlot::empty())
    }
}
