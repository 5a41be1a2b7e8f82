//! A row for a word of the memory.
ghost use Rattle.std.specs.Prelude.{◌≡◌, IfOk};
ghost use Rattle.rows.specs.Rows.{word_row};

use crate::cell::Cell;
use crate::piece::joined;
use std::alloc::{AllocError, Global};

/// An address and the word that stands there.
pub fn word_row(heap: Global, address: u16, word: u16) -> Result<Vec<u8>, AllocError>
    ensures { IfOk result (λ v. v.items ≡ word_row address word) }
{
    joined(heap, &[(4, Cell::Address(address)), (4, Cell::Word(word))])
}
