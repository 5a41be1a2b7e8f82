//! What a script is made of.

/// A number of beats, as a cue waits and a script line counts.
pub type Wait = u16;

/// A character, and how many beats it waits after the one before it.
#[derive(Clone, Copy, Debug, PartialEq, Eq)]
pub struct Cue {
    pub wait: Wait,
    pub character: u8,
}
