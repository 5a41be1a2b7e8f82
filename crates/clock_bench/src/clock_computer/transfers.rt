//! The transfers of one clock, by the timing signal.
ghost use Rattle.std.specs.Prelude.{◌≡◌, ◌+◌, ◌≤◌, true, if◌then◌else◌, nat_eq};
ghost use Rattle.line.specs.Rules.{Rule};
ghost use Rattle.machine.specs.Boards.{Sound};
ghost use Rattle.machine.specs.Clock.{moved, clocks_ended};
ghost use Rattle.clock_bench.specs.ClockComputers.{Moves, board, registers_of};

use crate::clock_computer::ClockComputer;
use crate::clock_computer::execution::{t4, t5, t6};
use crate::clock_computer::fetching::{t0, t1, t2};
use crate::clock_computer::indirection::t3;
use machine::Registers;
use memory::Memory;

// The registers after the transfers, and the memory write. The match is the timing decoder: a table of functions is no
// plainer.
fn transferred<M: Memory>(old: Registers, memory: &mut M) -> Registers
    requires { Sound old }
    ensures { Moves old.sc old (M.contents memory.old) result (M.contents memory.new) }
{
    match old.sc {
        0 => t0(old),
        1 => t1(old, memory),
        2 => t2(old),
        3 => t3(old, memory),
        4 => t4(old, memory),
        5 => t5(old),
        _ => t6(old, memory),
    }
}

// The clocks of the cycle that ended when SC came from `sc` to `next`, or 0 where none ended.
fn clocks_ended(sc: u8, next: u8) -> u16
    requires { sc ≤ 6 }
    ensures { result ≡ (if nat_eq next 0 then sc + 1 else 0) }
{
    if next == 0 { u16::from(sc) + 1 } else { 0 }
}

impl ClockComputer {
    /// The transfers and the memory write of one clock, without the beat. Answers the clocks of the cycle that it ends, or 0.
    pub(crate) fn transfer<M: Memory>(&mut self, memory: &mut M) -> u16
        requires { self.old.s ≡ true }
        ensures after { (rule : Rule) → board self.new (M.contents memory.new) rule ≡ moved (board self.old (M.contents memory.old) rule) }
        ensures answer { result ≡ clocks_ended (registers_of self.old) }
    {
        let before = self.registers();
        let after = transferred(before, memory);
        self.load(after);
        clocks_ended(before.sc, after.sc)
    }
}
