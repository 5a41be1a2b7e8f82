//! The short list: which calls the twin is given.
ghost use Rattle.std.specs.Prelude.{◌≡◌};
ghost use Rattle.machine.specs.Calls.{outcome as outcome_of};
ghost use Rattle.machine.specs.Lists.{step, struck, inside_then};

use crate::cosimulation::Outcome;
use machine::Call;

/// Whether a call is struck out: a granted clock that ended no cycle, or an examine made inside a cycle.
pub(crate) fn is_struck(inside: bool, call: Call, outcome: Outcome) -> bool
    ensures { result ≡ struck inside call (outcome_of outcome) }
{
    match call {
        Call::Clock => match outcome {
            Ok(clocks) => clocks == 0,
            Err(_) => false,
        },
        Call::Examine(_) => inside,
        _ => false,
    }
}

/// Whether the computer is inside a cycle after a call.
pub(crate) fn is_inside(inside: bool, call: Call, outcome: Outcome) -> bool
    ensures { result ≡ inside_then inside (step call (outcome_of outcome)) }
{
    match call {
        Call::Clock => match outcome {
            Ok(clocks) => clocks == 0,
            Err(_) => inside,
        },
        _ => inside,
    }
}
