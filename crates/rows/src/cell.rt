//! What stands in one place of a row or a line.
ghost use Rattle.rows.specs.Cells.{cell_text};

use crate::piece::Piece;
use std::alloc::AllocError;

/// What a register holds, or the name of an instruction.
#[derive(Clone, Copy)]
pub(crate) enum Cell {
    Flag(bool),
    Count(u8),
    Byte(u8),
    Address(u16),
    Word(u16),
    Instruction([u8; 10]),
}

impl Piece for Cell {
    ghost written = { cell_text };

    fn push_to(&self, text: &mut Vec<u8>) -> Result<(), AllocError> {
        let cell = *self;
        match cell {
            Cell::Flag(up) => text.extend_from_slice(&digits::flag_digit(up)),
            Cell::Count(count) => text.extend_from_slice(&digits::count_digit(count)),
            Cell::Byte(byte) => text.extend_from_slice(&digits::byte_digits(byte)),
            Cell::Address(address) => text.extend_from_slice(&digits::address_digits(address)),
            Cell::Word(word) => text.extend_from_slice(&digits::word_digits(word)),
            Cell::Instruction(bytes) => text.extend_from_slice(&bytes),
        }
    }
}
