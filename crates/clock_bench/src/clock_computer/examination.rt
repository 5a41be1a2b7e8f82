//! A word is examined through AR and DR, which are put back.
ghost use Rattle.std.specs.Prelude.{◌≡◌, ◌<◌};
ghost use Rattle.memory.specs.Contents.{fetched};
ghost use Rattle.clock_bench.specs.ClockComputers.{registers_of, with_ar_dr};

use crate::clock_computer::ClockComputer;
use memory::Memory;

/// An examination under way. When it ends, AR and DR are put back.
pub(super) struct Examination<'a> {
    pub(super) computer: &'a mut ClockComputer,
    pub(super) ar: u16,
    pub(super) dr: u16,
}

impl Drop for Examination<'_> {
    fn drop(self)
        requires { self.ar < 4096 }
        ensures { registers_of self.exit.0.now ≡ with_ar_dr self.entry.ar self.entry.dr (registers_of self.entry.computer.now) }
    {
        self.computer.ar = self.ar;
        self.computer.dr = self.dr;
        let Examination {
            computer: _,
            ar: _,
            dr: _,
        } = self;
    }
}

impl ClockComputer {
    /// AR ← address, DR ← M[AR]; answers DR.
    pub(super) fn read<M: Memory>(&mut self, memory: &M, address: u16) -> u16
        requires { address < 4096 }
        ensures answer { result ≡ fetched (M.contents memory.now) address }
        ensures after { registers_of self.new ≡ with_ar_dr address result (registers_of self.old) }
    {
        self.ar = address;
        self.dr = memory.fetch(self.ar);
        self.dr
    }
}
