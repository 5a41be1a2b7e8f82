//! One clock.
ghost use Rattle.std.specs.Prelude.{◌≡◌, true};
ghost use Rattle.machine.specs.Clock.{clocked, clocks_ended};
ghost use Rattle.clock_bench.specs.ClockComputers.{board, registers_of};

use crate::clock_computer::ClockComputer;
use line::Line;
use memory::Memory;

impl ClockComputer {
    /// A clock that is granted: the transfers, then one beat. Answers the clocks of the cycle that it ends, or 0.
    pub(super) fn tick<M: Memory, L: Line>(&mut self, memory: &mut M, line: &mut L) -> u16
        requires { self.old.s ≡ true }
        ensures after { board self.new (M.contents memory.new) (L.replies line.new) ≡ clocked (board self.old (M.contents memory.old) (L.replies line.old)) }
        ensures answer { result ≡ clocks_ended (registers_of self.old) }
    {
        let k = self.transfer(memory);
        self.beat(line);
        k
    }
}
