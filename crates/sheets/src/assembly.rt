//! Both passes over one sheet.
ghost use Rattle.std.specs.Prelude.{◌≡◌, List, length, IfOk, Ok, MatchResult, OnOk};
ghost use Rattle.sheets.specs.declared.placed.Cell.{Cell};
ghost use Rattle.sheets.specs.Assembling.{assembling};
ghost use Rattle.sheets.specs.Laws.{Lays};
ghost use Rattle.sheets.specs.Laying.{answered, memory_after};

use crate::book::OpenBook;
use crate::fault::LayingFault;
use crate::label::Label;
use memory::Memory;
use std::alloc::{AllocError, Global};

/// Takes the names of a text into an empty book over these records, and lays the text into a memory.
fn assemble_over<M: Memory>(
    records: &mut [Label],
    text: &[u8],
    memory: &mut M,
) -> Result<(usize, u16, u16), LayingFault>
    ensures answer { result ≡ answered (assembling (length records.old) (M.contents memory.old) text.now) }
    ensures memory { M.contents memory.new ≡ memory_after (assembling (length records.old) (M.contents memory.old) text.now) (M.contents memory.old) }
{
    let mut book = OpenBook::new(records);
    book.take_names(text)?;
    book.close().lay(text, memory)
}

/// Takes the names of a text into an empty book with room for that many labels, and lays the text into a memory. Answers
/// how many words, the lowest address and the highest. Want of memory for the book changes nothing.
pub fn assemble<M: Memory>(
    heap: Global,
    room: usize,
    text: &[u8],
    memory: &mut M,
) -> Result<Result<(usize, u16, u16), LayingFault>, AllocError>
    ensures answer { IfOk result (λ laid. laid ≡ answered (assembling room (M.contents memory.old) text.now)) }
    ensures memory { MatchResult result (λ _. M.contents memory.new ≡ memory_after (assembling room (M.contents memory.old) text.now) (M.contents memory.old)) (λ _. M.contents memory.new ≡ M.contents memory.old) }
    ensures law { OnOk result ((cs : List Cell) → assembling room (M.contents memory.old) text.now ≡ Ok cs → Lays (M.contents memory.old) cs (M.contents memory.new)) }
{
    let mut records = vec![in heap; Label::BLANK; room]?;
    Ok(assemble_over(&mut records, text, memory))
}
