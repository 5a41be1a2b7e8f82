//! A row for each instruction cycle of a run.
ghost use Rattle.std.specs.Prelude.{◌≡◌, IfOk};
ghost use Rattle.rows.specs.Rows.{cycle_heading, cycle_row};

use crate::cell::Cell;
use crate::piece::joined;
use machine::Visible;
use std::alloc::{AllocError, Global};

/// A cycle: where its instruction stood, the instruction as a word and by name, and the registers after it.
#[derive(Clone, Copy, Debug)]
pub struct CycleRow {
    pub at: u16,
    pub word: u16,
    pub instruction: [u8; 10],
    pub after: Visible,
}

/// The heading of the cycle rows.
pub fn cycle_heading() -> &'static str
    ensures { result.now ≡ cycle_heading }
{
    "AT  WORD INSTRUCTION PC  AC   E IEN R S FGI FGO INPR OUTR"
}

/// A cycle as a row, each cell under its heading.
pub fn cycle_row(heap: Global, row: CycleRow) -> Result<Vec<u8>, AllocError>
    ensures { IfOk result (λ v. v.items ≡ cycle_row row) }
{
    let after = row.after;
    let port = after.port;
    let columns = [
        (4, Cell::Address(row.at)),
        (5, Cell::Word(row.word)),
        (12, Cell::Instruction(row.instruction)),
        (4, Cell::Address(after.pc)),
        (5, Cell::Word(after.ac)),
        (2, Cell::Flag(after.e)),
        (4, Cell::Flag(after.ien)),
        (2, Cell::Flag(after.r)),
        (2, Cell::Flag(after.s)),
        (4, Cell::Flag(port.fgi)),
        (4, Cell::Flag(port.fgo)),
        (5, Cell::Byte(port.inpr)),
        (2, Cell::Byte(port.outr)),
    ];
    joined(heap, &columns)
}
