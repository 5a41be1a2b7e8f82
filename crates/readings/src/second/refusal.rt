//! Why the second simulator's panel turns a call down.

/// Why a call is turned down.
#[derive(Clone, Copy, Debug, PartialEq, Eq)]
pub enum Refusal {
    /// The memory has not 4096 words.
    WrongSize,
    /// There is no such address.
    NoSuchAddress,
    /// The computer is halted.
    Halted,
    /// The computer runs.
    Runs,
}

impl Refusal {
    /// The number by which it is told.
    pub(crate) fn number(self) -> u32 {
        match self {
            Refusal::WrongSize => 1,
            Refusal::NoSuchAddress => 2,
            Refusal::Halted => 3,
            Refusal::Runs => 4,
        }
    }
}
