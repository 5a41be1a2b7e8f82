//! The calls: a clock, and those of the panel.
ghost use Rattle.machine.specs.Boards.{ClockBoard};
ghost use Rattle.machine.specs.Calls.{on_clocked};
ghost use Rattle.clock_bench.specs.ClockComputers.{board};

use crate::clock_computer::ClockComputer;
use crate::clock_computer::examination::Examination;
use line::Line;
use machine::cause::{check_address, check_running, check_size, check_stopped};
use machine::{Computer, Refusal};
use memory::Memory;

impl Computer for ClockComputer {
    ghost Board = { ClockBoard };

    ghost board = { board };

    ghost on = { on_clocked };

    /// Makes one clock. Answers the clocks of the cycle that it ends, or 0.
    fn clock<M: Memory, L: Line>(&mut self, memory: &mut M, line: &mut L) -> Result<u16, Refusal> {
        check_size(memory.size())?;
        check_running(self.s)?;
        Ok(self.tick(memory, line))
    }

    fn start(&mut self) -> Result<u16, Refusal> {
        check_stopped(self.s)?;
        self.s = true;
        Ok(0)
    }

    fn aim(&mut self, address: u16) -> Result<u16, Refusal> {
        check_address(address)?;
        check_stopped(self.s)?;
        self.pc = address;
        Ok(0)
    }

    fn deposit<M: Memory>(
        &mut self,
        memory: &mut M,
        address: u16,
        word: u16,
    ) -> Result<u16, Refusal> {
        check_size(memory.size())?;
        check_address(address)?;
        check_stopped(self.s)?;
        memory.store(address, word);
        Ok(0)
    }

    /// The word is read through AR and DR, also inside a cycle.
    fn examine<M: Memory>(&mut self, memory: &M, address: u16) -> Result<u16, Refusal> {
        let (ar, dr) = (self.ar, self.dr);
        let examination = Examination {
            computer: self,
            ar,
            dr,
        };
        check_size(memory.size())?;
        check_address(address)?;
        Ok(examination.computer.read(memory, address))
    }
}
