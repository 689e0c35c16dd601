// A flag and the number beside it handed back for those that came, and a state with its current instance so: as it came where it has not changed, else told.
ghost use Rattle.std.specs.Prelude.{◌≡◌};
ghost use Rattle.face_replay.specs.Flags.{says, flagged_back, state_back};

use face::CState;
use regs::InRegister;
use rules::State;

// A flag and the number beside it.
#[derive(Clone, Copy)]
pub struct Flagged {
    pub flag: u64,
    pub number: u64,
}

pub(crate) fn state_back(came: CState, s: State) -> CState
    ensures { result ≡ state_back came s }
{
    let current = s.current;
    let regs = s.regs;
    let named = flagged_back(
        Flagged {
            flag: came.currentflag,
            number: came.current,
        },
        current,
    );
    CState {
        depth: s.depth,
        height: s.height,
        words: s.words,
        cells: s.cells,
        count: s.count,
        len: s.len,
        currentflag: named.flag,
        current: named.number,
        regs,
    }
}

// As they came where they say it, else 0 or 1, with 0 beside 0.
#[tactic(auto, unfolding(crate::specs::Flags::flagged_back, choice::specs::Choose::choose))]
pub(crate) fn flagged_back(came: Flagged, g: Option<u64>) -> Flagged
    ensures { result ≡ flagged_back came g }
{
    if is_said(came, g) {
        return came;
    }
    Flagged {
        flag: g.is_some().into_register(),
        number: g.unwrap_or(0),
    }
}

// The flag is any number, as it came from C.
fn is_said(f: Flagged, g: Option<u64>) -> bool
    ensures { result ≡ says f g }
{
    match g {
        None => !bool::from_register(f.flag),
        Some(n) => bool::from_register(f.flag) & (f.number == n),
    }
}
