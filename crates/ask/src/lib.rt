// One door for the nine requests of a trace: each is asked for by its own function.
#![tactic(auto)]

ghost use Rattle.std.specs.Prelude.{◌≡◌};
ghost use Rattle.rules.specs.declared.Asked.TheVariants.{Traced};
ghost use Rattle.rules.specs.World.{world_of};
ghost use Rattle.rules.specs.Answers.{shown_outcome};
ghost use Rattle.rules.specs.Rules.{answered};

use rules::{Outcome, Request, State};
use stack::{reset, restore_frame, set, sync_ip};
use stack_calls::{pop_frame, push_frame, replace_frame};
use stack_hosts::{prepare_host_frame, return_prepare_host_frame};

// Asks for a request: its refusal, or its step.
// The match is the table: each kind has its own function and arguments.
pub fn ask(s: State, words: &mut [u64], cells: &mut [u64], q: Request) -> Outcome
    ensures { shown_outcome result words.new cells.new
        ≡ answered (world_of s words.old cells.old) (Traced q) }
{
    match q {
        Request::Push(args) => push_frame(s, words, cells, args),
        Request::Pop(instance) => pop_frame(s, words, cells, instance),
        Request::Replace(args) => replace_frame(s, words, cells, args),
        Request::Host(args) => prepare_host_frame(s, words, cells, args),
        Request::ReturnHost(args) => return_prepare_host_frame(s, words, cells, args),
        Request::Sync(ip) => sync_ip(s, words, cells, ip),
        Request::Restore => restore_frame(s, words, cells),
        Request::Reset => reset(s, words, cells),
        Request::Set(head, cell) => set(s, words, cells, head, cell),
    }
}
