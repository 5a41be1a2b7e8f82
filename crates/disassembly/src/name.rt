//! Names of the instructions.
ghost use Rattle.std.specs.List.{find};
ghost use Rattle.std.specs.Prelude.{◌≡◌, ◌==◌};
ghost use Rattle.disassembly.specs.Names.{listed, operation_name, plain_name};

/// The memory-reference instructions, by their opcodes.
static OPERATIONS: [[u8; 3]; 7] = [
    *b"AND", *b"ADD", *b"LDA", *b"STA", *b"BUN", *b"BSA", *b"ISZ",
];

/// The other instructions, each with its word.
static PLAIN: [([u8; 3], u16); 18] = [
    (*b"CLA", 0x7800),
    (*b"CLE", 0x7400),
    (*b"CMA", 0x7200),
    (*b"CME", 0x7100),
    (*b"CIR", 0x7080),
    (*b"CIL", 0x7040),
    (*b"INC", 0x7020),
    (*b"SPA", 0x7010),
    (*b"SNA", 0x7008),
    (*b"SZA", 0x7004),
    (*b"SZE", 0x7002),
    (*b"HLT", 0x7001),
    (*b"INP", 0xF800),
    (*b"OUT", 0xF400),
    (*b"SKI", 0xF200),
    (*b"SKO", 0xF100),
    (*b"ION", 0xF080),
    (*b"IOF", 0xF040),
];

/// The name of the memory-reference instruction with this opcode.
pub(crate) fn operation_name(opcode: u16) -> Option<[u8; 3]>
    ensures { result ≡ operation_name opcode }
{
    OPERATIONS.get(usize::from(opcode)).copied()
}

/// The row of a table with that word.
fn row_with(table: &[([u8; 3], u16)], word: u16) -> Option<([u8; 3], u16)>
    ensures { result ≡ find (λ row. word == row.1) table.now }
{
    table.iter().copied().find(|row| word == row.1)
}

/// The name of any other instruction.
pub(crate) fn plain_name(word: u16) -> Option<[u8; 3]>
    ensures { result ≡ plain_name word }
{
    let (name, _) = row_with(&PLAIN, word)?;
    Some(name)
}

/// Whether a word is an instruction.
pub fn is_listed(word: u16) -> bool
    ensures { result ≡ listed word }
{
    word / 0x1000 % 8 < 7 || plain_name(word).is_some()
}
