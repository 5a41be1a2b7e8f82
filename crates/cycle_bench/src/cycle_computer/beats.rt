//! The beats of a cycle.
ghost use Rattle.std.specs.Prelude.{◌≡◌};
ghost use Rattle.memory.specs.Contents.{Contents};
ghost use Rattle.line.specs.Rules.{Rule};
ghost use Rattle.machine.specs.Cycle.{beaten};
ghost use Rattle.cycle_bench.specs.CycleComputers.{cycle_board, stepped, readied};

use crate::cycle_computer::CycleComputer;
use line::Line;
use machine::word::up12;

impl CycleComputer {
    /// Some beats.
    pub(super) fn beats<L: Line>(&mut self, line: &mut L, n: u8)
        ensures { (words : Contents) → cycle_board self.new words (L.replies line.new) ≡ beaten n (cycle_board self.old words (L.replies line.old)) }
    {
        self.port.beats(line, n);
    }

    /// One beat.
    pub(super) fn beat<L: Line>(&mut self, line: &mut L)
        ensures { (words : Contents) → cycle_board self.new words (L.replies line.new) ≡ beaten 1 (cycle_board self.old words (L.replies line.old)) }
    {
        self.port.beat(line);
    }

    /// PC goes past the word, and R up exactly when IEN and a flag are up.
    fn step(&mut self)
        ensures { (words : Contents) (rule : Rule) → cycle_board self.new words rule ≡ stepped (cycle_board self.old words rule) }
    {
        self.pc = up12(self.pc);
        self.r = self.ien & (self.port.fgi | self.port.fgo);
    }

    /// The beats before an instruction is carried out, and the step past its word.
    pub(super) fn ready<L: Line>(&mut self, line: &mut L, n: u8)
        ensures { (words : Contents) → cycle_board self.new words (L.replies line.new) ≡ readied n (cycle_board self.old words (L.replies line.old)) }
    {
        self.beats(line, n);
        self.step();
    }
}
