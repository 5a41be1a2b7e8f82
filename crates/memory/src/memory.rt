//! What a memory is.
ghost use Rattle.std.specs.Prelude.{◌≡◌};
ghost use Rattle.memory.specs.Contents.{Contents, size, fetched, stored, Replaced};

/// A memory; its meaning is the list of its words.
pub trait Memory {
    ghost contents: { Self → Contents };

    /// How many words there are.
    fn size(&self) -> usize
        ensures { result ≡ size (contents self.now) };

    /// The word at an address, or zero past the end.
    fn fetch(&self, address: u16) -> u16
        ensures { result ≡ fetched (contents self.now) address };

    /// Replaces the word at one address and no other; past the end it changes nothing.
    fn store(&mut self, address: u16, word: u16)
        ensures contents { contents self.new ≡ stored (contents self.old) address word }
        ensures replaced { Replaced (contents self.old) address word (contents self.new) };
}
