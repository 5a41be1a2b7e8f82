//! The word of a statement, with a closed book.
ghost use Rattle.std.specs.Prelude.{◌≡◌};
ghost use Rattle.sheets.specs.Books.{closed_labels};
ghost use Rattle.sheets.specs.Laying.{encoded, operand_address, code_word, cell_of};

use crate::book::ClosedBook;
use crate::fault::SheetFault;
use crate::label::find;
use crate::placed::{Cell, Placed};
use statements::{Code, Operand, Operation};

/// The word of a memory-reference instruction.
fn encode(operation: Operation, address: u16, indirect: bool) -> u16
    ensures { result ≡ encoded operation address indirect }
{
    let top = if indirect { 0x8000 } else { 0 };
    top + operation as u16 * 0x1000 + address % 0x1000
}

impl ClosedBook<'_> {
    /// Where an operand points.
    fn address_of(&self, line: u16, operand: Operand) -> Result<u16, SheetFault>
        ensures { result ≡ operand_address (closed_labels self.now) line operand }
    {
        match operand {
            Operand::Address(address) => Ok(address),
            Operand::Label(name) => {
                find(self.labels, name).ok_or(SheetFault::LabelUnknown { line })
            }
        }
    }

    /// The word that a statement lays.
    fn word_of(&self, line: u16, code: Code) -> Result<u16, SheetFault>
        ensures { result ≡ code_word (closed_labels self.now) line code }
    {
        match code {
            Code::Word(word) => Ok(word),
            Code::Reference {
                operation,
                operand,
                indirect,
            } => {
                let address = self.address_of(line, operand)?;
                Ok(encode(operation, address, indirect))
            }
        }
    }

    /// The word that a statement lays, at its address.
    pub(crate) fn cell_of(&self, placed: Placed) -> Result<Cell, SheetFault>
        ensures { result ≡ cell_of (closed_labels self.now) placed }
    {
        if placed.address > 4095 {
            return Err(SheetFault::PastMemory { line: placed.line });
        }
        let word = self.word_of(placed.line, placed.code)?;
        Ok(Cell {
            address: placed.address as u16,
            word,
        })
    }
}
