//! The second simulator clock by clock.
use crate::second::Second;
use crate::second::refusal::Refusal;
use crate::second::register::Register;
use crate::second::transfers::{next, written};

impl Second {
    /// One clock: every register by the table, the memory, then the teletype. Answers the clocks of the cycle that it ends,
    /// or 0.
    pub(crate) fn clock(&mut self) -> Result<u32, Refusal> {
        self.ready()?;
        let before = self.numbers;
        let address = before.get(Register::Ar);
        let word = self.word(address);
        for register in Register::ALL {
            self.numbers.put(register, next(register, &before, word));
        }
        if let Some(number) = written(&before) {
            self.write(address, number);
        }
        self.exchange();
        if self.numbers.get(Register::Sc) == 0 {
            Ok(before.get(Register::Sc).saturating_add(1))
        } else {
            Ok(0)
        }
    }
}
