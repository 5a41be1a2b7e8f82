//! The interrupt cycle.
ghost use Rattle.std.specs.Prelude.{◌≡◌};
ghost use Rattle.line.specs.Rules.{Rule};
ghost use Rattle.machine.specs.Table.{interrupted};
ghost use Rattle.cycle_bench.specs.CycleComputers.{cycle_board};

use crate::cycle_computer::CycleComputer;
use memory::Memory;

impl CycleComputer {
    /// Address 0 takes PC, PC becomes 1, and IEN and R go down. Answers the clocks.
    pub(super) fn interrupt<M: Memory>(&mut self, memory: &mut M) -> u16
        ensures clocks { result ≡ 3 }
        ensures board { (rule : Rule) → cycle_board self.new (M.contents memory.new) rule ≡ interrupted (cycle_board self.old (M.contents memory.old) rule) }
    {
        memory.store(0, self.pc);
        self.pc = 1;
        self.ien = false;
        self.r = false;
        3
    }
}
