//! A memory over 16-bit words.
ghost use Rattle.std.specs.Prelude.{◌≡◌, slice_set};
ghost use Rattle.memory.specs.Contents.{holding};

use crate::memory::Memory;

/// A memory over given words.
#[derive(Debug, PartialEq, Eq, Drop)]
pub struct WordMemory {
    words: Vec<u16>,
}

impl WordMemory {
    /// A memory that holds these words.
    pub fn new(words: Vec<u16>) -> WordMemory
        ensures { result.words.items ≡ words.items }
    {
        WordMemory { words }
    }

    /// The words that it holds.
    pub fn into_words(self) -> Vec<u16>
        ensures { result.items ≡ self.words.items }
    {
        let WordMemory { words } = self;
        words
    }

    /// Writes one word, and no other.
    fn put(&mut self, address: u16, word: u16)
        ensures { self.new.words.items ≡ slice_set self.old.words.items address word }
    {
        if let Some(place) = self.words.get_mut(usize::from(address)) {
            *place = word;
        }
    }
}

impl Memory for WordMemory {
    ghost contents = { λ m. holding m.words.items };

    fn size(&self) -> usize {
        self.words.len()
    }

    fn fetch(&self, address: u16) -> u16 {
        self.words.get(usize::from(address)).copied().unwrap_or(0)
    }

    fn store(&mut self, address: u16, word: u16) {
        self.put(address, word);
    }
}
