//! One cycle.
ghost use Rattle.std.specs.Prelude.{◌≡◌, ◌≤◌, true, is_err};
ghost use Rattle.machine.specs.declared.call.Call.TheVariants.{Clock};
ghost use Rattle.machine.specs.Cycle.{clocks, cycled};
ghost use Rattle.machine.specs.Calls.{outcome, on_cycled};
ghost use Rattle.cycle_bench.specs.CycleComputers.{cycle_board, BeforeLastBeat};

use crate::cycle_computer::CycleComputer;
use line::Line;
use machine::Refusal;
use machine::cause::{check_running, check_size};
use memory::Memory;

impl CycleComputer {
    /// A cycle but for its last beat. Answers its clocks.
    fn before_last_beat<M: Memory, L: Line>(&mut self, memory: &mut M, line: &mut L) -> u16
        ensures { BeforeLastBeat (cycle_board self.old (M.contents memory.old) (L.replies line.old)) result (cycle_board self.new (M.contents memory.new) (L.replies line.new)) }
    {
        if self.r {
            self.beats(line, 2);
            self.interrupt(memory)
        } else {
            self.execute(memory, line)
        }
    }

    /// A whole cycle. Answers its clocks.
    pub(super) fn whole_cycle<M: Memory, L: Line>(&mut self, memory: &mut M, line: &mut L) -> u16
        ensures clocks { result ≡ clocks (cycle_board self.old (M.contents memory.old) (L.replies line.old)) }
        ensures most { result ≤ 7 }
        ensures board { cycle_board self.new (M.contents memory.new) (L.replies line.new) ≡ cycled (cycle_board self.old (M.contents memory.old) (L.replies line.old)) }
    {
        let clocks = self.before_last_beat(memory, line);
        self.beat(line);
        clocks
    }

    /// Makes one cycle. Answers its clocks.
    pub fn cycle<M: Memory, L: Line>(
        &mut self,
        memory: &mut M,
        line: &mut L,
    ) -> Result<u16, Refusal>
        ensures outcome { outcome result ≡ (on_cycled Clock (cycle_board self.old (M.contents memory.old) (L.replies line.old))).outcome }
        ensures after { cycle_board self.new (M.contents memory.new) (L.replies line.new) ≡ (on_cycled Clock (cycle_board self.old (M.contents memory.old) (L.replies line.old))).after }
        ensures refusal { is_err result ≡ true → (self.new ≡ self.old) × (memory.new ≡ memory.old) × (line.new ≡ line.old) }
    {
        check_size(memory.size())?;
        check_running(self.s)?;
        Ok(self.whole_cycle(memory, line))
    }
}
