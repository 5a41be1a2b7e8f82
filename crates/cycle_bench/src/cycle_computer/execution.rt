//! The instruction at PC.
ghost use Rattle.std.specs.Prelude.{◌-◌, ◌<◌};
ghost use Rattle.machine.specs.Words.{opcode};
ghost use Rattle.machine.specs.Table.{row};
ghost use Rattle.cycle_bench.specs.CycleComputers.{cycle_board, CarriedOut, Executed, readied};

use crate::cycle_computer::CycleComputer;
use line::Line;
use machine::bit;
use memory::Memory;

impl CycleComputer {
    /// A memory-reference instruction, but for the last beat. Answers its clocks.
    fn refer<M: Memory, L: Line>(&mut self, memory: &mut M, line: &mut L, word: u16) -> u16
        requires { opcode word < 7 }
        ensures { CarriedOut (row (opcode word)) word (readied ((row (opcode word)).clocks - 1) (cycle_board self.old (M.contents memory.old) (L.replies line.old))) result (cycle_board self.new (M.contents memory.new) (L.replies line.new)) }
    {
        // the operation decoder, a match as the project asks
        match word / 4096 % 8 {
            0 => {
                self.ready(line, 5);
                self.and(memory, word)
            }
            1 => {
                self.ready(line, 5);
                self.add(memory, word)
            }
            2 => {
                self.ready(line, 5);
                self.lda(memory, word)
            }
            3 => {
                self.ready(line, 4);
                self.sta(memory, word)
            }
            4 => {
                self.ready(line, 4);
                self.bun(memory, word)
            }
            5 => {
                self.ready(line, 5);
                self.bsa(memory, word)
            }
            _ => {
                self.ready(line, 6);
                self.isz(memory, word)
            }
        }
    }

    /// The instruction at PC, but for its last beat. Answers its clocks.
    pub(super) fn execute<M: Memory, L: Line>(&mut self, memory: &mut M, line: &mut L) -> u16
        ensures { Executed (cycle_board self.old (M.contents memory.old) (L.replies line.old)) result (cycle_board self.new (M.contents memory.new) (L.replies line.new)) }
    {
        let word = memory.fetch(self.pc);
        let indirect = bit!(word, 15);
        match word / 4096 % 8 {
            7 if indirect => {
                self.ready(line, 3);
                self.port_marks(word)
            }
            7 => {
                self.ready(line, 3);
                self.register_marks(word)
            }
            _ => self.refer(memory, line, word),
        }
    }
}
