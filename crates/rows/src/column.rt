//! Cells in columns.
ghost use Rattle.std.specs.Prelude.{◌≡◌, ◌++◌, replicate, OnOk};
ghost use Rattle.rows.specs.Cells.{column_text};

use crate::cell::Cell;
use crate::piece::Piece;
use std::alloc::AllocError;
use std::iter::repeat_n;

/// Writes so many spaces behind a text.
fn push_spaces(text: &mut Vec<u8>, count: usize) -> Result<(), AllocError>
    ensures { OnOk result (text.new.items ≡ text.old.items ++ replicate count 32) }
{
    text.extend(repeat_n(b' ', count))
}

/// A cell, with the room from where its column begins to where the next one does.
pub(crate) type Column = (usize, Cell);

impl Piece for Column {
    ghost written = { column_text };

    fn push_to(&self, text: &mut Vec<u8>) -> Result<(), AllocError> {
        let (room, cell) = *self;
        let before = text.len();
        cell.push_to(text)?;
        let width = text.len() - before;
        push_spaces(text, room.saturating_sub(width))
    }
}
