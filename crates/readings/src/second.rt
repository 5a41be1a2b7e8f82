//! A second simulator of the Basic Computer, to hold the benches against.
//!
//! It was written from the textbook's tables alone and shares no function and no definition with the benches: its registers
//! are plain numbers in one array, a clock looks up the rows of the register-transfer table, and a cycle looks up the named
//! instructions.
mod clocks;
mod cycles;
mod key;
mod marks;
mod merge;
pub(crate) mod numbers;
mod panel;
mod refusal;
mod register;
mod teletype;
mod transfers;

pub(crate) use key::Key;
pub(crate) use numbers::Numbers;
pub(crate) use refusal::Refusal;
pub(crate) use register::Register;
pub(crate) use teletype::Teletype;

/// A whole second board: its registers, its words and its teletype.
#[derive(Drop)]
pub(crate) struct Second {
    pub numbers: Numbers,
    words: Vec<u16>,
    pub teletype: Teletype,
}

impl Second {
    /// A new board over these words: zero in every register, except that FGO is up.
    pub(crate) fn new(words: Vec<u16>, teletype: Teletype) -> Second {
        let mut numbers = Numbers::default();
        numbers.put(Register::Fgo, 1);
        Second {
            numbers,
            words,
            teletype,
        }
    }

    /// The word at an address.
    pub(crate) fn word(&self, address: u32) -> u32 {
        self.words
            .get(address as usize)
            .map_or(0, |word| u32::from(*word))
    }

    /// Writes a number of 16 bits at an address.
    fn write(&mut self, address: u32, number: u32) {
        if let Some(word) = self.words.get_mut(address as usize) {
            *word = (number % 65_536) as u16;
        }
    }

    /// One exchange with the teletype: a key fills INPR and raises FGI, a printed character raises FGO.
    fn exchange(&mut self) {
        let fgi = self.numbers.get(Register::Fgi);
        let fgo = self.numbers.get(Register::Fgo);
        if let Some(key) = self.teletype.type_key(fgi == 0) {
            self.numbers.put(Register::Inpr, u32::from(key));
            self.numbers.put(Register::Fgi, 1);
        }
        let character = (self.numbers.get(Register::Outr) % 256) as u8;
        if fgo == 0 && self.teletype.print(character) {
            self.numbers.put(Register::Fgo, 1);
        }
    }
}
