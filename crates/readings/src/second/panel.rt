//! The second simulator's panel.
use crate::second::Second;
use crate::second::refusal::Refusal;
use crate::second::register::Register;

/// Refuses an address that no word has.
fn within(address: u32) -> Result<(), Refusal> {
    if address > 4095 {
        Err(Refusal::NoSuchAddress)
    } else {
        Ok(())
    }
}

impl Second {
    /// Refuses where the memory has not 4096 words.
    fn sized(&self) -> Result<(), Refusal> {
        if self.words.len() != 4096 {
            Err(Refusal::WrongSize)
        } else {
            Ok(())
        }
    }

    /// Refuses while the computer runs.
    fn halted(&self) -> Result<(), Refusal> {
        if self.numbers.up(Register::S) {
            Err(Refusal::Runs)
        } else {
            Ok(())
        }
    }

    /// Refuses where a clock or a cycle cannot be made.
    pub(crate) fn ready(&self) -> Result<(), Refusal> {
        self.sized()?;
        if !self.numbers.up(Register::S) {
            return Err(Refusal::Halted);
        }
        Ok(())
    }

    pub(crate) fn start(&mut self) -> Result<(), Refusal> {
        self.halted()?;
        self.numbers.raise(Register::S);
        Ok(())
    }

    pub(crate) fn aim(&mut self, address: u32) -> Result<(), Refusal> {
        within(address)?;
        self.halted()?;
        self.numbers.put(Register::Pc, address);
        Ok(())
    }

    pub(crate) fn deposit(&mut self, address: u32, word: u32) -> Result<(), Refusal> {
        self.sized()?;
        within(address)?;
        self.halted()?;
        self.write(address, word);
        Ok(())
    }

    pub(crate) fn examine(&self, address: u32) -> Result<u32, Refusal> {
        self.sized()?;
        within(address)?;
        Ok(self.word(address))
    }
}
