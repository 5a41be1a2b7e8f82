//! The calls: a cycle, and those of the panel.
ghost use Rattle.machine.specs.Boards.{CycleBoard};
ghost use Rattle.machine.specs.Calls.{on_cycled};
ghost use Rattle.cycle_bench.specs.CycleComputers.{cycle_board};

use crate::cycle_computer::CycleComputer;
use line::Line;
use machine::cause::{check_address, check_size, check_stopped};
use machine::{Computer, Refusal};
use memory::Memory;

impl Computer for CycleComputer {
    ghost Board = { CycleBoard };

    ghost board = { cycle_board };

    ghost on = { on_cycled };

    /// Makes one cycle. Answers its clocks.
    fn clock<M: Memory, L: Line>(&mut self, memory: &mut M, line: &mut L) -> Result<u16, Refusal> {
        self.cycle(memory, line)
    }

    fn start(&mut self) -> Result<u16, Refusal> {
        check_stopped(self.s)?;
        self.s = true;
        Ok(0)
    }

    fn aim(&mut self, address: u16) -> Result<u16, Refusal> {
        check_address(address)?;
        check_stopped(self.s)?;
        self.pc = address;
        Ok(0)
    }

    fn deposit<M: Memory>(
        &mut self,
        memory: &mut M,
        address: u16,
        word: u16,
    ) -> Result<u16, Refusal> {
        check_size(memory.size())?;
        check_address(address)?;
        check_stopped(self.s)?;
        memory.store(address, word);
        Ok(0)
    }

    fn examine<M: Memory>(&mut self, memory: &M, address: u16) -> Result<u16, Refusal> {
        check_size(memory.size())?;
        check_address(address)?;
        Ok(memory.fetch(address))
    }
}
