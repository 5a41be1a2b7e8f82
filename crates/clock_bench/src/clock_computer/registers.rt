//! The registers: new, read and written.
ghost use Rattle.std.specs.Prelude.{◌≡◌};
ghost use Rattle.machine.specs.Boards.{Sound, new_registers};
ghost use Rattle.clock_bench.specs.ClockComputers.{registers_of};

use crate::clock_computer::ClockComputer;
use machine::{Port, Registers};

impl ClockComputer {
    /// A computer with zero everywhere, except that FGO is up.
    pub fn new() -> ClockComputer
        ensures { registers_of result ≡ new_registers }
    {
        ClockComputer {
            ar: 0,
            pc: 0,
            dr: 0,
            ac: 0,
            ir: 0,
            tr: 0,
            sc: 0,
            e: false,
            i: false,
            r: false,
            s: false,
            ien: false,
            port: Port::new(),
        }
    }

    /// All registers as they stand.
    pub fn registers(&self) -> Registers
        ensures { result ≡ registers_of self.now }
    {
        Registers {
            ar: self.ar,
            pc: self.pc,
            dr: self.dr,
            ac: self.ac,
            ir: self.ir,
            tr: self.tr,
            sc: self.sc,
            e: self.e,
            i: self.i,
            r: self.r,
            s: self.s,
            ien: self.ien,
            port: self.port,
        }
    }

    // All registers are written at once, field by field: the project asks for number fields of its own, written whole.
    pub(super) fn load(&mut self, next: Registers)
        requires { Sound next }
        ensures { registers_of self.new ≡ next }
    {
        *self = ClockComputer {
            ar: next.ar,
            pc: next.pc,
            dr: next.dr,
            ac: next.ac,
            ir: next.ir,
            tr: next.tr,
            sc: next.sc,
            e: next.e,
            i: next.i,
            r: next.r,
            s: next.s,
            ien: next.ien,
            port: next.port,
        };
    }
}
