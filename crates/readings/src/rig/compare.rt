//! Comparing a bench with the second simulator.
use crate::rig::Rig;
use crate::rig::difference::{Bench, Difference, What};
use crate::rig::outcome::Outcome;
use crate::second::Register::*;
use crate::second::{Numbers, Register, Teletype};
use machine::{Registers, Visible};
use memory::Memory;

impl From<Visible> for Numbers {
    /// The registers of the instruction bench as plain numbers.
    fn from(visible: Visible) -> Numbers {
        let mut numbers = Numbers::default();
        numbers.put(Pc, u32::from(visible.pc));
        numbers.put(Ac, u32::from(visible.ac));
        numbers.put(E, u32::from(visible.e));
        numbers.put(R, u32::from(visible.r));
        numbers.put(S, u32::from(visible.s));
        numbers.put(Ien, u32::from(visible.ien));
        numbers.put(Inpr, u32::from(visible.port.inpr));
        numbers.put(Outr, u32::from(visible.port.outr));
        numbers.put(Fgi, u32::from(visible.port.fgi));
        numbers.put(Fgo, u32::from(visible.port.fgo));
        numbers
    }
}

impl From<Registers> for Numbers {
    /// The registers of the clock bench as plain numbers: those that a program sees, and the others.
    fn from(registers: Registers) -> Numbers {
        let mut numbers = Numbers::from(Visible::from(registers));
        numbers.put(Ar, u32::from(registers.ar));
        numbers.put(Dr, u32::from(registers.dr));
        numbers.put(Ir, u32::from(registers.ir));
        numbers.put(Tr, u32::from(registers.tr));
        numbers.put(Sc, u32::from(registers.sc));
        numbers.put(I, u32::from(registers.i));
        numbers
    }
}

impl Bench {
    /// That something differs on this bench.
    fn differs(self, what: What) -> Difference {
        Difference { bench: self, what }
    }

    /// Refuses where a call returned something else.
    pub(crate) fn check_outcome(self, ours: Outcome, theirs: Outcome) -> Result<(), Difference> {
        if ours == theirs {
            Ok(())
        } else {
            Err(self.differs(What::Outcome(ours, theirs)))
        }
    }

    /// Refuses where a register that is meant differs.
    fn check_registers<F: Fn(Register) -> bool>(
        self,
        ours: &Numbers,
        theirs: &Numbers,
        meant: F,
    ) -> Result<(), Difference>
        requires { F.IsAlwaysCallable meant }
    {
        for register in Register::ALL {
            let mine = ours.get(register);
            let other = theirs.get(register);
            if meant(register) && mine != other {
                return Err(self.differs(What::Register(register, mine, other)));
            }
        }
        Ok(())
    }

    /// Refuses where a word differs.
    fn check_word(self, address: u16, ours: u32, theirs: u32) -> Result<(), Difference> {
        if ours == theirs {
            Ok(())
        } else {
            Err(self.differs(What::Word(address, ours, theirs)))
        }
    }

    /// Refuses where other characters are printed.
    fn check_printed(self, ours: &[u8], theirs: &Teletype) -> Result<(), Difference> {
        if theirs.shows(ours) {
            Ok(())
        } else {
            Err(self.differs(What::Printed))
        }
    }
}

impl Rig {
    /// The registers of the clock bench.
    pub(crate) fn clock_numbers(&self) -> Numbers {
        Numbers::from(self.clock.computer.registers())
    }

    /// The registers of the instruction bench.
    pub(crate) fn instruction_numbers(&self) -> Numbers {
        Numbers::from(self.instruction.computer.visible())
    }

    /// After each call: every register of the clock bench.
    pub(crate) fn compare_clocked(&self) -> Result<(), Difference> {
        Bench::Clock.check_registers(&self.clock_numbers(), &self.by_clocks.numbers, |_| true)
    }

    /// Every word of both memories: the clock bench's against the second simulator by clocks and by cycles.
    fn compare_words(&self) -> Result<(), Difference> {
        // by address, since a difference names it, and three memories are compared at once
        for address in 0..4096u16 {
            let by_clocks = self.by_clocks.word(u32::from(address));
            let by_cycles = self.by_cycles.word(u32::from(address));
            let ours = u32::from(self.clock.memory.fetch(address));
            Bench::Clock.check_word(address, ours, by_clocks)?;
            Bench::Clock.check_word(address, ours, by_cycles)?;
            let ours = u32::from(self.instruction.memory.fetch(address));
            Bench::Instruction.check_word(address, ours, by_cycles)?;
        }
        Ok(())
    }

    /// Between cycles: what a program can see on all four, every word and every printed character.
    pub(crate) fn compare_whole(&self) -> Result<(), Difference> {
        let theirs = self.by_cycles.numbers;
        Bench::Clock.check_registers(&self.clock_numbers(), &theirs, |register| {
            register.is_visible()
        })?;
        Bench::Instruction.check_registers(
            &self.instruction_numbers(),
            &theirs,
            |register| register.is_visible(),
        )?;
        self.compare_words()?;
        Bench::Clock.check_printed(self.clock.line.printed(), &self.by_clocks.teletype)?;
        Bench::Instruction.check_printed(self.instruction.line.printed(), &self.by_cycles.teletype)
    }
}
