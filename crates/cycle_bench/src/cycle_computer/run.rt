//! A run of cycles.
ghost use Rattle.std.specs.Prelude.{◌≡◌, true, is_err};
ghost use Rattle.memory.specs.Contents.{size};
ghost use Rattle.machine.specs.Cycle.{ran};
ghost use Rattle.machine.specs.Calls.{outcome, on_run};
ghost use Rattle.machine.specs.Laws.{CycleByCycle};
ghost use Rattle.cycle_bench.specs.CycleComputers.{cycle_board, as_ran, LawfulRun};

use crate::cycle_computer::CycleComputer;
use line::Line;
use machine::Refusal;
use machine::cause::{check_running, check_size};
use memory::Memory;

impl CycleComputer {
    /// Makes cycles until n are made or S is down. Answers how many, and their clocks.
    fn cycles<M: Memory, L: Line>(&mut self, memory: &mut M, line: &mut L, n: u16) -> (u16, u32)
        ensures made { result.0 ≡ (ran n (cycle_board self.old (M.contents memory.old) (L.replies line.old))).cycles }
        ensures clocks { result.1 ≡ (ran n (cycle_board self.old (M.contents memory.old) (L.replies line.old))).clocks }
        ensures board { cycle_board self.new (M.contents memory.new) (L.replies line.new) ≡ (ran n (cycle_board self.old (M.contents memory.old) (L.replies line.old))).after }
        ensures law { size (M.contents memory.old) ≡ 4096 → CycleByCycle n (cycle_board self.old (M.contents memory.old) (L.replies line.old)) (as_ran result (cycle_board self.new (M.contents memory.new) (L.replies line.new))) }
    {
        let mut clocks: u32 = 0;
        for made in 0..n {
            if !self.s {
                return (made, clocks);
            }
            // `as`: with `u32::from` the proof did not close
            clocks += self.whole_cycle(memory, line) as u32;
        }
        (n, clocks)
    }

    /// Makes cycles until n are made or S is down. Answers how many, and their clocks.
    pub fn run<M: Memory, L: Line>(
        &mut self,
        memory: &mut M,
        line: &mut L,
        n: u16,
    ) -> Result<(u16, u32), Refusal>
        ensures outcome { outcome result ≡ (on_run n (cycle_board self.old (M.contents memory.old) (L.replies line.old))).outcome }
        ensures after { cycle_board self.new (M.contents memory.new) (L.replies line.new) ≡ (on_run n (cycle_board self.old (M.contents memory.old) (L.replies line.old))).after }
        ensures law { LawfulRun n (cycle_board self.old (M.contents memory.old) (L.replies line.old)) result (cycle_board self.new (M.contents memory.new) (L.replies line.new)) }
        ensures refusal { is_err result ≡ true → (self.new ≡ self.old) × (memory.new ≡ memory.old) × (line.new ≡ line.old) }
    {
        check_size(memory.size())?;
        check_running(self.s)?;
        Ok(self.cycles(memory, line, n))
    }
}
