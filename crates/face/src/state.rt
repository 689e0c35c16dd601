// A state as numbers: a flag and a number stand for the current instance. A flag of 0 reads as none whatever the number beside it, any other as given;
// told again it is 0 or 1, and the number beside 0 is 0.
ghost use Rattle.std.specs.Prelude.{◌≡◌};
ghost use Rattle.face.specs.States.{state_from, state_to};

use regs::{InRegister, Registers};
use rules::State;

#[repr(C)]
#[derive(Clone, Copy)]
pub struct CState {
    pub depth: usize,
    pub height: usize,
    pub words: usize,
    pub cells: usize,
    pub count: usize,
    pub len: usize,
    pub currentflag: u64,
    pub current: u64,
    pub regs: Registers,
}

impl From<CState> for State {
    ghost from_gives = { λ c s. s ≡ state_from c };

    fn from(c: CState) -> State {
        let regs = c.regs;
        State {
            depth: c.depth,
            height: c.height,
            words: c.words,
            cells: c.cells,
            count: c.count,
            len: c.len,
            current: bool::from_register(c.currentflag).then_some(c.current),
            regs,
        }
    }
}

impl From<State> for CState {
    ghost from_gives = { λ s c. c ≡ state_to s };

    fn from(s: State) -> CState {
        let current = s.current;
        let regs = s.regs;
        CState {
            depth: s.depth,
            height: s.height,
            words: s.words,
            cells: s.cells,
            count: s.count,
            len: s.len,
            currentflag: current.is_some().into_register(),
            current: current.unwrap_or(0),
            regs,
        }
    }
}
