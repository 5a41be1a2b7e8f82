//! The beat: the line is shown a status, and its reply is applied.
ghost use Rattle.std.specs.Prelude.{◌≡◌};
ghost use Rattle.memory.specs.Contents.{Contents};
ghost use Rattle.machine.specs.Clock.{after_beat};
ghost use Rattle.clock_bench.specs.ClockComputers.{board};

use crate::clock_computer::ClockComputer;
use line::Line;

impl ClockComputer {
    /// One beat with the status after the transfers.
    pub(crate) fn beat<L: Line>(&mut self, line: &mut L)
        ensures { (contents : Contents) → board self.new contents (L.replies line.new) ≡ after_beat (board self.old contents (L.replies line.old)) }
    {
        self.port.beat(line);
    }
}
