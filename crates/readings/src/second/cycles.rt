//! The second simulator by whole instructions.
use crate::second::Second;
use crate::second::refusal::Refusal;
use crate::second::register::Register;

/// An instruction that names a place in memory.
#[derive(Clone, Copy)]
enum Reference {
    And,
    Add,
    Lda,
    Sta,
    Bun,
    Bsa,
    Isz,
}

use self::Reference::*;

impl Reference {
    /// The seven, by their opcodes.
    const BY_OPCODE: [Reference; 7] = [And, Add, Lda, Sta, Bun, Bsa, Isz];

    /// The clocks that its cycle takes.
    fn clocks(self) -> u32 {
        match self {
            Sta | Bun => 5,
            And | Add | Lda | Bsa => 6,
            Isz => 7,
        }
    }
}

impl Second {
    /// Puts one more into PC.
    pub(crate) fn step(&mut self) {
        let pc = self.numbers.get(Register::Pc);
        self.numbers.put(Register::Pc, pc.wrapping_add(1) % 4096);
    }

    /// The place that an instruction names: its low 12 bits, or those of the word there.
    fn place(&self, word: u32) -> u32 {
        if word >= 0x8000 {
            self.word(word % 4096) % 4096
        } else {
            word % 4096
        }
    }

    /// Carries out an instruction that names a place.
    fn refer(&mut self, reference: Reference, place: u32) {
        let ac = self.numbers.get(Register::Ac);
        let word = self.word(place);
        match reference {
            And => self.numbers.put(Register::Ac, ac & word),
            Add => {
                let sum = ac.wrapping_add(word);
                self.numbers.put(Register::Ac, sum % 65_536);
                self.numbers.put(Register::E, sum / 65_536 % 2);
            }
            Lda => self.numbers.put(Register::Ac, word),
            Sta => self.write(place, ac),
            Bun => self.numbers.put(Register::Pc, place),
            Bsa => {
                let pc = self.numbers.get(Register::Pc);
                self.write(place, pc);
                self.numbers.put(Register::Pc, place);
                self.step();
            }
            Isz => {
                self.write(place, word.wrapping_add(1));
                if self.word(place) == 0 {
                    self.step();
                }
            }
        }
    }

    /// That many exchanges with the teletype.
    fn exchanges(&mut self, count: u32) {
        for _ in 0..count {
            self.exchange();
        }
    }

    /// The interrupt cycle but for its last exchange.
    fn interrupt(&mut self) -> u32 {
        self.exchanges(2);
        let pc = self.numbers.get(Register::Pc);
        self.write(0, pc);
        self.numbers.put(Register::Pc, 1);
        self.numbers.lower(Register::Ien);
        self.numbers.lower(Register::R);
        3
    }

    /// An instruction but for its last exchange.
    fn instruction(&mut self) -> u32 {
        let word = self.word(self.numbers.get(Register::Pc));
        let named = Reference::BY_OPCODE
            .get((word / 4096 % 8) as usize)
            .copied();
        let clocks = named.map_or(4, |reference| reference.clocks());
        self.exchanges(clocks.saturating_sub(1));
        let flags = self.numbers.up(Register::Fgi) || self.numbers.up(Register::Fgo);
        let requested = self.numbers.up(Register::Ien) && flags;
        self.step();
        match named {
            Some(reference) => {
                let place = self.place(word);
                self.refer(reference, place);
            }
            None => self.mark(word),
        }
        if requested {
            self.numbers.raise(Register::R);
        }
        clocks
    }

    /// One cycle: the interrupt if R is up, else the instruction at PC. Answers its clocks.
    pub(crate) fn cycle(&mut self) -> Result<u32, Refusal> {
        self.ready()?;
        let clocks = if self.numbers.up(Register::R) {
            self.interrupt()
        } else {
            self.instruction()
        };
        self.exchange();
        Ok(clocks)
    }
}
