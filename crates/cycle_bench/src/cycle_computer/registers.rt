//! The registers of a computer that makes whole cycles.
ghost use Rattle.std.specs.Prelude.{◌≡◌};
ghost use Rattle.machine.specs.Boards.{visible_of, new_registers};
ghost use Rattle.cycle_bench.specs.CycleComputers.{registers_of};

use crate::cycle_computer::CycleComputer;
use machine::{Port, Visible};

impl CycleComputer {
    /// A new computer: zero everywhere, except that FGO is up.
    pub fn new() -> Self
        ensures { registers_of result ≡ visible_of new_registers }
    {
        CycleComputer {
            ac: 0,
            e: false,
            pc: 0,
            ien: false,
            r: false,
            s: false,
            port: Port::new(),
        }
    }

    /// The registers.
    pub fn visible(&self) -> Visible
        ensures { result ≡ registers_of self.now }
    {
        Visible {
            ac: self.ac,
            e: self.e,
            pc: self.pc,
            ien: self.ien,
            r: self.r,
            s: self.s,
            port: self.port,
        }
    }
}
