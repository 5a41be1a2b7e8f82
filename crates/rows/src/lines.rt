//! Registers by name, a line each.
ghost use Rattle.std.specs.Prelude.{◌≡◌, IfOk};
ghost use Rattle.rows.specs.Cells.{line_text};
ghost use Rattle.rows.specs.Rows.{visible_lines, hidden_lines};

use crate::cell::Cell;
use crate::piece::{Piece, joined};
use machine::{Registers, Visible};
use std::alloc::{AllocError, Global};

/// A cell with its name, a line of its own.
type Line<'a> = (&'a str, Cell);

impl Piece for Line<'_> {
    ghost written = { line_text };

    fn push_to(&self, text: &mut Vec<u8>) -> Result<(), AllocError> {
        let (name, cell) = *self;
        text.extend_from_slice(name.as_bytes())?;
        text.push(b' ')?;
        cell.push_to(text)?;
        text.push(b'\n')?;
        Ok(())
    }
}

/// The registers that a program can see, a line each.
pub fn visible_lines(heap: Global, visible: Visible) -> Result<Vec<u8>, AllocError>
    ensures { IfOk result (λ v. v.items ≡ visible_lines visible) }
{
    let port = visible.port;
    let lines = [
        ("PC", Cell::Address(visible.pc)),
        ("AC", Cell::Word(visible.ac)),
        ("E", Cell::Flag(visible.e)),
        ("IEN", Cell::Flag(visible.ien)),
        ("R", Cell::Flag(visible.r)),
        ("S", Cell::Flag(visible.s)),
        ("FGI", Cell::Flag(port.fgi)),
        ("FGO", Cell::Flag(port.fgo)),
        ("INPR", Cell::Byte(port.inpr)),
        ("OUTR", Cell::Byte(port.outr)),
    ];
    joined(heap, &lines)
}

/// The registers that no program can see, a line each.
pub fn hidden_lines(heap: Global, registers: Registers) -> Result<Vec<u8>, AllocError>
    ensures { IfOk result (λ v. v.items ≡ hidden_lines registers) }
{
    let lines = [
        ("AR", Cell::Address(registers.ar)),
        ("DR", Cell::Word(registers.dr)),
        ("IR", Cell::Word(registers.ir)),
        ("TR", Cell::Word(registers.tr)),
        ("I", Cell::Flag(registers.i)),
        ("SC", Cell::Count(registers.sc)),
    ];
    joined(heap, &lines)
}
