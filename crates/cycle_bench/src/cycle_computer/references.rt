//! The memory-reference instructions, each on a board with PC past its word. Each answers its clocks.
ghost use Rattle.std.specs.Prelude.{◌≡◌, ◌<◌};
ghost use Rattle.memory.specs.Contents.{fetched};
ghost use Rattle.line.specs.Rules.{Rule};
ghost use Rattle.machine.specs.Table.{address, AND, ADD, LDA, STA, BUN, BSA, ISZ};
ghost use Rattle.cycle_bench.specs.CycleComputers.{cycle_board, CarriedOut};

use crate::cycle_computer::CycleComputer;
use machine::bit;
use machine::word::{skipped, up12};
use memory::Memory;

/// The address of a word: its low 12 bits, or with bit 15 up those of the word there.
fn address_of<M: Memory>(memory: &M, word: u16) -> u16
    ensures value { result ≡ address (M.contents memory.now) word }
    ensures fits { result < 4096 }
{
    let address = word % 4096;
    if bit!(word, 15) {
        memory.fetch(address) % 4096
    } else {
        address
    }
}

/// The word at that address.
fn operand_of<M: Memory>(memory: &M, word: u16) -> u16
    ensures { result ≡ fetched (M.contents memory.now) (address (M.contents memory.now) word) }
{
    memory.fetch(address_of(memory, word))
}

impl CycleComputer {
    /// AND: AC and the operand, bit by bit.
    pub(super) fn and<M: Memory>(&mut self, memory: &M, word: u16) -> u16
        ensures { (rule : Rule) → CarriedOut AND word (cycle_board self.old (M.contents memory.now) rule) result (cycle_board self.new (M.contents memory.now) rule) }
    {
        self.ac &= operand_of(memory, word);
        6
    }

    /// ADD: AC plus the operand, with the carry in E.
    pub(super) fn add<M: Memory>(&mut self, memory: &M, word: u16) -> u16
        ensures { (rule : Rule) → CarriedOut ADD word (cycle_board self.old (M.contents memory.now) rule) result (cycle_board self.new (M.contents memory.now) rule) }
    {
        let operand = operand_of(memory, word);
        self.e = u32::from(self.ac) + u32::from(operand) >= 65536;
        self.ac = self.ac.wrapping_add(operand);
        6
    }

    /// LDA: AC takes the operand.
    pub(super) fn lda<M: Memory>(&mut self, memory: &M, word: u16) -> u16
        ensures { (rule : Rule) → CarriedOut LDA word (cycle_board self.old (M.contents memory.now) rule) result (cycle_board self.new (M.contents memory.now) rule) }
    {
        self.ac = operand_of(memory, word);
        6
    }

    /// STA: the memory takes AC.
    pub(super) fn sta<M: Memory>(&mut self, memory: &mut M, word: u16) -> u16
        ensures { (rule : Rule) → CarriedOut STA word (cycle_board self.old (M.contents memory.old) rule) result (cycle_board self.new (M.contents memory.new) rule) }
    {
        let address = address_of(memory, word);
        memory.store(address, self.ac);
        5
    }

    /// BUN: PC takes the address.
    pub(super) fn bun<M: Memory>(&mut self, memory: &M, word: u16) -> u16
        ensures { (rule : Rule) → CarriedOut BUN word (cycle_board self.old (M.contents memory.now) rule) result (cycle_board self.new (M.contents memory.now) rule) }
    {
        self.pc = address_of(memory, word);
        5
    }

    /// BSA: the memory takes PC, and PC the address after.
    pub(super) fn bsa<M: Memory>(&mut self, memory: &mut M, word: u16) -> u16
        ensures { (rule : Rule) → CarriedOut BSA word (cycle_board self.old (M.contents memory.old) rule) result (cycle_board self.new (M.contents memory.new) rule) }
    {
        let address = address_of(memory, word);
        memory.store(address, self.pc);
        self.pc = up12(address);
        6
    }

    /// ISZ: one more in the memory, with a skip where that makes zero.
    pub(super) fn isz<M: Memory>(&mut self, memory: &mut M, word: u16) -> u16
        ensures { (rule : Rule) → CarriedOut ISZ word (cycle_board self.old (M.contents memory.old) rule) result (cycle_board self.new (M.contents memory.new) rule) }
    {
        let address = address_of(memory, word);
        let next = memory.fetch(address).wrapping_add(1);
        memory.store(address, next);
        self.pc = skipped(self.pc, next == 0);
        7
    }
}
