//! How keys are typed and characters printed.
use crate::second::key::Key;
use crate::second::teletype::Teletype;
use std::alloc::{AllocError, Global};
use std::collections::VecDeque;

impl Teletype {
    /// A blank roll with that room.
    pub(crate) fn new(
        heap: Global,
        keys: VecDeque<Key>,
        room: usize,
    ) -> Result<Teletype, AllocError> {
        Ok(Teletype {
            keys,
            clocks: 0,
            roll: Vec::with_capacity(heap, room)?,
            room,
        })
    }

    /// One clock of the keyboard: the next key, if its time has come and the computer is free to take it.
    pub(crate) fn type_key(&mut self, free: bool) -> Option<u8> {
        let clocks = self.clocks.saturating_add(1).min(65_535);
        self.clocks = clocks;
        let key = self.keys.pop_front_if(|key| free && clocks >= key.after)?;
        self.clocks = 0;
        Some(key.code)
    }

    /// Prints a character, unless the roll has run out.
    pub(crate) fn print(&mut self, character: u8) -> bool {
        if self.roll.len() >= self.room {
            return false;
        }
        self.roll.push(character).unwrap();
        true
    }

    /// Whether exactly these characters are printed.
    pub(crate) fn shows(&self, characters: &[u8]) -> bool {
        self.roll.as_slice() == characters
    }
}
