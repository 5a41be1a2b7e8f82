//! Rows of a sheet.
ghost use Rattle.std.specs.Prelude.{◌≡◌, not, [], ◌∷◌, ◌++◌};
ghost use Rattle.disassembly.specs.Laws.{AssemblesBack, LaysWords};
ghost use Rattle.disassembly.specs.Names.{listed};
ghost use Rattle.disassembly.specs.Rows.{begins_with_hex, disassembled, mark_of, row};
ghost use Rattle.disassembly.specs.Sheets.{ending};

use crate::name::{operation_name, plain_name};
use digits::word_digits;

/// Three letters of a name, a space, four bytes of a number and two of a mark.
fn row_of(name: [u8; 3], number: [u8; 4], mark: [u8; 2]) -> [u8; 10]
    ensures { result ≡ row name number mark }
{
    let [a, b, c] = name;
    let [d, e, f, g] = number;
    let [h, i] = mark;
    [a, b, c, b' ', d, e, f, g, h, i]
}

/// The mark of an indirect instruction.
fn mark_of(word: u16) -> [u8; 2]
    ensures { result ≡ mark_of word }
{
    if word >= 0x8000 { *b" I" } else { *b"  " }
}

/// The row of a word.
fn row_of_word(word: u16) -> [u8; 10]
    ensures { result ≡ disassembled word }
{
    if let Some(name) = operation_name(word / 0x1000 % 8) {
        return row_of(name, word_digits(word % 0x1000), mark_of(word));
    }
    match plain_name(word) {
        Some(name) => row_of(name, *b"    ", *b"  "),
        None => row_of(*b"HEX", word_digits(word), *b"  "),
    }
}

/// The row of a word, in the form of a program sheet. It assembles back to that word, and begins with HEX where the word
/// is no instruction.
pub fn disassemble(word: u16) -> [u8; 10]
    ensures text { result ≡ disassembled word }
    ensures back { AssemblesBack word result }
    ensures alone { LaysWords (word ∷ []) (result ++ 10 ∷ ending) }
    ensures hex { begins_with_hex result ≡ not (listed word) }
{
    row_of_word(word)
}
