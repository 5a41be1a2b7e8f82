//! What can be asked of a computer.

/// A call on a computer, of either kind.
#[derive(Clone, Copy, Debug, PartialEq, Eq)]
pub enum Call {
    /// One clock; on the computer that makes whole cycles, one cycle.
    Clock,
    /// Raises S.
    Start,
    /// Sets PC to an address.
    Aim(u16),
    /// Stores a word: the address, then the word.
    Deposit(u16, u16),
    /// Reads the word at an address.
    Examine(u16),
}
