//! The computers side by side.
ghost use Rattle.std.specs.Prelude.{◌≡◌, ◌+◌, ◌<◌, ◌≤◌, [], ◌∷◌, ◌++◌, IfOk, if◌then◌else◌, vec_len, vec_capacity, MatchResult};
ghost use Rattle.line.specs.Rules.{Alike};
ghost use Rattle.machine.specs.Calls.{on_cycled};
ghost use Rattle.machine.specs.Cosimulation.{advanced, Runs, Lawful};
ghost use Rattle.cycle_bench.specs.CycleComputers.{cycle_board};
ghost use Rattle.cosimulation.specs.Pairs.{outcomes as outcomes_of, pair as pair_of};

use crate::cosimulation::{Cosimulation, Outcome};
use crate::short_list::{is_inside, is_struck};
use clock_bench::ClockComputer;
use cycle_bench::CycleComputer;
use line::Line;
use machine::{Call, Computer};
use memory::Memory;
use std::alloc::{AllocError, Global};

/// The twin's part of a call: none where it is struck out.
fn follow<M: Memory, L: Line>(
    struck: bool,
    call: Call,
    twin: &mut CycleComputer,
    outcomes: &mut Vec<Outcome>,
    memory: &mut M,
    line: &mut L,
)
    requires { vec_len outcomes.old < vec_capacity outcomes.old }
    ensures board { cycle_board twin.new (M.contents memory.new) (L.replies line.new) ≡ (if struck then cycle_board twin.old (M.contents memory.old) (L.replies line.old) else (on_cycled call (cycle_board twin.old (M.contents memory.old) (L.replies line.old))).after) }
    ensures outcomes { outcomes_of outcomes.new.items ≡ (if struck then outcomes_of outcomes.old.items else outcomes_of outcomes.old.items ++ ((on_cycled call (cycle_board twin.old (M.contents memory.old) (L.replies line.old))).outcome ∷ [])) }
    ensures len { vec_len outcomes.new ≤ vec_len outcomes.old + 1 }
    ensures capacity { vec_capacity outcomes.new ≡ vec_capacity outcomes.old }
{
    if struck {
        return;
    }
    let outcome = twin.perform(call, memory, line);
    outcomes.push_reserved(outcome);
}

impl Cosimulation {
    /// One call of the list: on the computer, and on its twin unless the short list leaves it out.
    fn advance<MA: Memory, LA: Line, MB: Memory, LB: Line>(
        &mut self,
        call: Call,
        memory: &mut MA,
        line: &mut LA,
        twin_memory: &mut MB,
        twin_line: &mut LB,
    )
        requires room { vec_len self.old.outcomes < vec_capacity self.old.outcomes }
        requires twin_room { vec_len self.old.twin_outcomes < vec_capacity self.old.twin_outcomes }
        ensures pair { pair_of self.new (MA.contents memory.new) (LA.replies line.new) (MB.contents twin_memory.new) (LB.replies twin_line.new) ≡ advanced call (pair_of self.old (MA.contents memory.old) (LA.replies line.old) (MB.contents twin_memory.old) (LB.replies twin_line.old)) }
        ensures len { vec_len self.new.outcomes ≡ vec_len self.old.outcomes + 1 }
        ensures twin_len { vec_len self.new.twin_outcomes ≤ vec_len self.old.twin_outcomes + 1 }
        ensures capacity { vec_capacity self.new.outcomes ≡ vec_capacity self.old.outcomes }
        ensures twin_capacity { vec_capacity self.new.twin_outcomes ≡ vec_capacity self.old.twin_outcomes }
    {
        let inside = self.inside;
        let outcome = self.computer.perform(call, memory, line);
        let struck = is_struck(inside, call, outcome);
        follow(
            struck,
            call,
            &mut self.twin,
            &mut self.twin_outcomes,
            twin_memory,
            twin_line,
        );
        self.inside = is_inside(inside, call, outcome);
        self.outcomes.push_reserved(outcome);
    }
}

// Two memories and two lines are four parameters: a struct of four references, for two functions, is no plainer.
/// Makes a new computer on each bench, carries out the calls on the first and their short list on its twin. Want of memory
/// for what they return changes nothing.
pub fn cosimulate<MA: Memory, LA: Line, MB: Memory, LB: Line>(
    heap: Global,
    calls: &[Call],
    memory: &mut MA,
    line: &mut LA,
    twin_memory: &mut MB,
    twin_line: &mut LB,
) -> Result<Cosimulation, AllocError>
    ensures runs { MatchResult result (λ v. Runs calls.now (MA.contents memory.old) (LA.replies line.old) (MB.contents twin_memory.old) (LB.replies twin_line.old) (pair_of v (MA.contents memory.new) (LA.replies line.new) (MB.contents twin_memory.new) (LB.replies twin_line.new))) (λ _. (memory.new ≡ memory.old) × (line.new ≡ line.old) × (twin_memory.new ≡ twin_memory.old) × (twin_line.new ≡ twin_line.old)) }
    ensures laws { MA.contents memory.old ≡ MB.contents twin_memory.old → Alike (LA.replies line.old) (LB.replies twin_line.old) → IfOk result (λ v. Lawful calls.now (MA.contents memory.old) (LA.replies line.old) (LB.replies twin_line.old) (pair_of v (MA.contents memory.new) (LA.replies line.new) (MB.contents twin_memory.new) (LB.replies twin_line.new))) }
{
    let outcomes = Vec::with_capacity(heap, calls.len())?;
    let twin_outcomes = Vec::with_capacity(heap, calls.len())?;
    let computer = ClockComputer::new();
    let twin = CycleComputer::new();
    let mut pair = Cosimulation {
        computer,
        twin,
        inside: false,
        outcomes,
        twin_outcomes,
    };
    for call in calls {
        pair.advance(*call, memory, line, twin_memory, twin_line);
    }
    Ok(pair)
}
