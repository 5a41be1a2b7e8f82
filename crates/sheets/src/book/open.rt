//! An open book.
ghost use Rattle.std.specs.Prelude.{◌≡◌, [], length};
ghost use Rattle.sheets.specs.Books.{records_of, open_labels, closed_labels, taking_into};
ghost use Rattle.sheets.specs.Labels.{over};
ghost use Rattle.sheets.specs.Laws.{Takes};
ghost use Rattle.sheets.specs.Sheets.{sheet_of};
ghost use Rattle.sheets.specs.Taking.{kept};

use crate::book::{ClosedBook, OpenBook};
use crate::fault::SheetFault;
use crate::label::Label;

impl<'a> OpenBook<'a> {
    /// An empty book over these records.
    pub fn new(records: &'a mut [Label]) -> OpenBook<'a>
        ensures records { records_of result ≡ records.old }
        ensures labels { open_labels result ≡ [] }
        ensures lent { result.records.ghost_name ≡ records.entry.ghost_name }
    {
        OpenBook { records, count: 0 }
    }

    /// How many labels it holds.
    pub fn count(&self) -> usize
        ensures { result ≡ length (open_labels self.now) }
    {
        self.count
    }

    /// Takes the names of a text, and answers how many labels the book then holds.
    pub fn take_names(&mut self, text: &[u8]) -> Result<usize, SheetFault>
        ensures answer { result ≡ (taking_into self.old text.now).answer }
        ensures records { records_of self.new ≡ over (taking_into self.old text.now).labels (records_of self.old) }
        ensures labels { open_labels self.new ≡ kept result (taking_into self.old text.now).labels (open_labels self.old) }
        ensures lent { self.new.records.ghost_name ≡ self.old.records.ghost_name }
        ensures law { Takes (length (records_of self.old)) (open_labels self.old) (sheet_of text.now) (taking_into self.old text.now) }
    {
        self.take_lines(text)
    }

    /// Ends the taking of names.
    pub fn close(self) -> ClosedBook<'a>
        ensures { closed_labels result ≡ open_labels self.entry }
    {
        let OpenBook { records, count } = self;
        ClosedBook {
            labels: &records[0..count],
        }
    }
}
