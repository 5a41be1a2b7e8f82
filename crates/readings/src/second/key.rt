//! The keys of the second simulator.

/// A key, struck so many clocks after the one before it.
#[derive(Clone, Copy, Debug)]
pub struct Key {
    pub after: u32,
    pub code: u8,
}
