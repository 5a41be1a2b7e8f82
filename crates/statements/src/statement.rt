//! Statements of a sheet.

/// The name of a label: one letter, then two letters, digits or spaces that fill up.
#[derive(Clone, Copy, Debug, PartialEq, Eq)]
pub struct Name {
    pub first: u8,
    pub second: u8,
    pub third: u8,
}

/// The memory-reference instructions, in the order of their opcodes.
#[derive(Clone, Copy, Debug, PartialEq, Eq)]
pub enum Operation {
    And,
    Add,
    Lda,
    Sta,
    Bun,
    Bsa,
    Isz,
}

/// Where an instruction points: a label or an address.
#[derive(Clone, Copy, Debug, PartialEq, Eq)]
pub enum Operand {
    Label(Name),
    Address(u16),
}

/// What a statement lays: an instruction that points into memory, or a word as it stands.
#[derive(Clone, Copy, Debug, PartialEq, Eq)]
pub enum Code {
    Reference {
        operation: Operation,
        operand: Operand,
        indirect: bool,
    },
    Word(u16),
}

/// What a line says.
#[derive(Clone, Copy, Debug, PartialEq, Eq)]
pub enum Statement {
    Blank,
    Origin(u16),
    End,
    Lays { label: Option<Name>, code: Code },
}
