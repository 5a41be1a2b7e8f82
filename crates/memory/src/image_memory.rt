//! A memory over the bytes of an image.
ghost use Rattle.std.specs.Prelude.{◌≡◌, ◌+◌, ◌*◌, ◌/◌, ◌<◌, vec_len, slice_index};
ghost use Rattle.memory.specs.Contents.{holding, stored, Replaced};
ghost use Rattle.memory.specs.Images.{words_of, stored_bytes};

use crate::memory::Memory;

/// A memory over given bytes, two to a word, the high byte first. An odd last byte is neither counted nor touched.
#[derive(Debug, PartialEq, Eq, Drop)]
pub struct ImageMemory {
    bytes: Vec<u8>,
}

impl ImageMemory {
    /// A memory over these bytes.
    pub fn new(bytes: Vec<u8>) -> ImageMemory
        ensures { result.bytes.items ≡ bytes.items }
    {
        ImageMemory { bytes }
    }

    /// The bytes, with an odd last one if there is one.
    pub fn into_bytes(self) -> Vec<u8>
        ensures { result.items ≡ self.bytes.items }
    {
        let ImageMemory { bytes } = self;
        bytes
    }

    /// The word whose high byte is byte `i`.
    fn word_at(&self, i: usize) -> u16
        requires { i + 1 < vec_len self.now.bytes }
        ensures { result ≡ 256 * slice_index self.now.bytes.items i + slice_index self.now.bytes.items (i + 1) }
    {
        u16::from_be_bytes([self.bytes[i], self.bytes[i + 1]])
    }

    /// Writes the two bytes of one word, and no other byte.
    fn put(&mut self, address: u16, word: u16)
        ensures { self.new.bytes.items ≡ stored_bytes self.old.bytes.items address word }
    {
        let i = 2 * usize::from(address);
        if i + 1 < self.bytes.len() {
            let [high, low] = word.to_be_bytes();
            self.bytes[i] = high;
            self.bytes[i + 1] = low;
        }
    }
}

/// How many whole words that many bytes make.
fn word_count(bytes: usize) -> usize
    ensures { result ≡ bytes / 2 }
{
    bytes / 2
}

impl Memory for ImageMemory {
    ghost contents = { λ m. holding (words_of m.bytes.items) };

    fn size(&self) -> usize {
        word_count(self.bytes.len())
    }

    fn fetch(&self, address: u16) -> u16 {
        let i = 2 * usize::from(address);
        // by two indices: with `get(i..i + 2)` the proof did not close
        if i + 1 < self.bytes.len() {
            self.word_at(i)
        } else {
            0
        }
    }

    fn store(&mut self, address: u16, word: u16)
        ensures contents { holding (words_of self.new.bytes.items) ≡ stored (holding (words_of self.old.bytes.items)) address word }
        ensures replaced { Replaced (holding (words_of self.old.bytes.items)) address word (holding (words_of self.new.bytes.items)) }
        ensures bytes { self.new.bytes.items ≡ stored_bytes self.old.bytes.items address word }
    {
        self.put(address, word);
    }
}
