//! A row for each clock of a run.
ghost use Rattle.std.specs.Prelude.{◌≡◌, IfOk};
ghost use Rattle.rows.specs.Rows.{clock_heading, clock_row};

use crate::cell::Cell;
use crate::piece::joined;
use machine::Registers;
use std::alloc::{AllocError, Global};

/// A clock: its timing signal, the instruction by name, and the registers after it.
#[derive(Clone, Copy, Debug)]
pub struct ClockRow {
    pub time: u8,
    pub instruction: [u8; 10],
    pub after: Registers,
}

/// The heading of the clock rows.
pub fn clock_heading() -> &'static str
    ensures { result.now ≡ clock_heading }
{
    "T INSTRUCTION SC AR  PC  DR   AC   IR   TR   I E IEN R S FGI FGO INPR OUTR"
}

/// A clock as a row, each cell under its heading.
pub fn clock_row(heap: Global, row: ClockRow) -> Result<Vec<u8>, AllocError>
    ensures { IfOk result (λ v. v.items ≡ clock_row row) }
{
    let after = row.after;
    let port = after.port;
    let columns = [
        (2, Cell::Count(row.time)),
        (12, Cell::Instruction(row.instruction)),
        (3, Cell::Count(after.sc)),
        (4, Cell::Address(after.ar)),
        (4, Cell::Address(after.pc)),
        (5, Cell::Word(after.dr)),
        (5, Cell::Word(after.ac)),
        (5, Cell::Word(after.ir)),
        (5, Cell::Word(after.tr)),
        (2, Cell::Flag(after.i)),
        (2, Cell::Flag(after.e)),
        (4, Cell::Flag(after.ien)),
        (2, Cell::Flag(after.r)),
        (2, Cell::Flag(after.s)),
        (4, Cell::Flag(port.fgi)),
        (4, Cell::Flag(port.fgo)),
        (5, Cell::Byte(port.inpr)),
        (2, Cell::Byte(port.outr)),
    ];
    joined(heap, &columns)
}
