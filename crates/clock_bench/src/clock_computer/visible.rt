//! What a program can see of the computer.
ghost use Rattle.std.specs.Prelude.{◌≡◌};
ghost use Rattle.machine.specs.Boards.{visible_of};
ghost use Rattle.clock_bench.specs.ClockComputers.{registers_of};

use crate::clock_computer::ClockComputer;
use machine::Visible;

impl ClockComputer {
    /// The registers that a program can see.
    pub fn visible(&self) -> Visible
        ensures { result ≡ visible_of (registers_of self.now) }
    {
        Visible::from(self.registers())
    }
}
