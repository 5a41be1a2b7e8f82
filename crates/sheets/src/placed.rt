//! Statements at their places.
use statements::{Code, Name};

/// A statement that lays a word: its line, the address of its word, its label if it has one, and what it lays.
#[derive(Clone, Copy)]
pub struct Placed {
    pub line: u16,
    pub address: u32,
    pub label: Option<Name>,
    pub code: Code,
}

/// A word, and the address at which it is laid.
#[derive(Clone, Copy)]
pub struct Cell {
    pub address: u16,
    pub word: u16,
}

/// What one line of a sheet does.
// Three cases: an Option of an Option would be no plainer.
#[derive(Clone, Copy)]
pub enum Step {
    Nothing,
    End,
    Lays(Placed),
}
