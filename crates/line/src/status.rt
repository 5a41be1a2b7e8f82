//! What a computer and its line tell each other at a clock.

/// What the computer shows after the transfers of a clock: its two flags and its output register.
#[derive(Clone, Copy, Debug, PartialEq, Eq)]
pub struct Status {
    /// The input flag: a character waits in the input register.
    pub fgi: bool,
    /// The output flag: the output register is free for the next character.
    pub fgo: bool,
    /// The output register.
    pub outr: u8,
}

/// What the line answers: a character for the input register or none, and whether it printed the output register.
#[derive(Clone, Copy, Debug, PartialEq, Eq)]
pub struct Reply {
    pub character: Option<u8>,
    pub printed: bool,
}
