//! Laying with a closed book.
ghost use Rattle.std.specs.Prelude.{◌≡◌, ◌<◌, List, Ok};
ghost use Rattle.sheets.specs.declared.placed.Cell.{Cell};
ghost use Rattle.sheets.specs.Books.{closed_labels};
ghost use Rattle.sheets.specs.Laws.{Lays};
ghost use Rattle.sheets.specs.Laying.{cells_of, cells, checked, laying, answered, memory_after, one_word_more, stored_all, summary};
ghost use Rattle.sheets.specs.Sheets.{sheet_of};

use crate::book::ClosedBook;
use crate::fault::{LayingFault, SheetFault};
use crate::reader::SheetReader;
use memory::Memory;

/// One word more, at this address.
fn count_word(laid: (usize, u16, u16), address: u16) -> (usize, u16, u16)
    requires { laid.0 < 65536 }
    ensures { result ≡ one_word_more laid address }
{
    let (count, lowest, highest) = laid;
    if count == 0 {
        return (1, address, address);
    }
    (count + 1, lowest.min(address), highest.max(address))
}

impl ClosedBook<'_> {
    /// Refuses a text that cannot be laid.
    fn check(&self, text: &[u8]) -> Result<(), SheetFault>
        ensures { result ≡ checked (cells_of (closed_labels self.now) (sheet_of text.now)) }
    {
        for placed in SheetReader::new(text)? {
            self.cell_of(placed?)?;
        }
        Ok(())
    }

    /// Stores the words of a text that can be laid.
    fn store<M: Memory>(&self, text: &[u8], memory: &mut M) -> Result<(usize, u16, u16), SheetFault>
        requires { checked (cells_of (closed_labels self.now) (sheet_of text.now)) ≡ Ok tt }
        ensures answer { result ≡ Ok (summary (cells (cells_of (closed_labels self.now) (sheet_of text.now)))) }
        ensures memory { M.contents memory.new ≡ stored_all (M.contents memory.old) (cells (cells_of (closed_labels self.now) (sheet_of text.now))) }
    {
        let mut laid = (0, 0, 0);
        for placed in SheetReader::new(text)? {
            let cell = self.cell_of(placed?)?;
            memory.store(cell.address, cell.word);
            laid = count_word(laid, cell.address);
        }
        Ok(laid)
    }

    /// Checks a whole text, and then lays it into a memory; the book is spent. Answers how many words, the lowest address
    /// and the highest.
    pub fn lay<M: Memory>(
        self,
        text: &[u8],
        memory: &mut M,
    ) -> Result<(usize, u16, u16), LayingFault>
        ensures answer { result ≡ answered (laying (closed_labels self.entry) (M.contents memory.old) text.now) }
        ensures memory { M.contents memory.new ≡ memory_after (laying (closed_labels self.entry) (M.contents memory.old) text.now) (M.contents memory.old) }
        ensures law { (cs : List Cell) → laying (closed_labels self.entry) (M.contents memory.old) text.now ≡ Ok cs → Lays (M.contents memory.old) cs (M.contents memory.new) }
    {
        if memory.size() != 4096 {
            return Err(LayingFault::MemorySize);
        }
        self.check(text)?;
        Ok(self.store(text, memory)?)
    }
}
