//! Taking names into an open book, line by line.
ghost use Rattle.std.specs.Prelude.{◌≡◌, ◌≤◌, length, take, is_some, IfOk};
ghost use Rattle.sheets.specs.Books.{records_of, open_labels, taking_into};
ghost use Rattle.sheets.specs.Labels.{lookup, over};
ghost use Rattle.sheets.specs.Taking.{entering, entered, records_after, kept};

use crate::book::OpenBook;
use crate::fault::SheetFault;
use crate::label::{Label, find};
use crate::placed::Placed;
use crate::reader::SheetReader;
use statements::Name;

impl OpenBook<'_> {
    /// Whether a name is among the first `n` records.
    fn holds(&self, n: usize, name: Name) -> bool
        requires { n ≤ length (records_of self.now) }
        ensures { result ≡ is_some (lookup (take n (records_of self.now)) name) }
    {
        find(&self.records[0..n], name).is_some()
    }

    /// Enters the label of a statement, if it has one, behind the first `n` records.
    fn enter(&mut self, n: usize, placed: Placed) -> Result<usize, SheetFault>
        requires behind { self.old.count ≤ n }
        requires within { n ≤ length (records_of self.old) }
        ensures answer { result ≡ entered (entering (length (records_of self.old)) (take n (records_of self.old)) placed) }
        ensures records { records_of self.new ≡ records_after (entering (length (records_of self.old)) (take n (records_of self.old)) placed) (records_of self.old) }
        ensures sized { length (records_of self.new) ≡ length (records_of self.old) }
        ensures within { IfOk result (λ m. (n ≤ m) × (m ≤ length (records_of self.new))) }
        ensures labels { open_labels self.new ≡ open_labels self.old }
        ensures count { self.new.count ≡ self.old.count }
        ensures lent { self.new.records.ghost_name ≡ self.old.records.ghost_name }
    {
        let line = placed.line;
        let Some(name) = placed.label else {
            if placed.address > 4095 {
                return Err(SheetFault::PastMemory { line });
            }
            return Ok(n);
        };
        if self.holds(n, name) {
            return Err(SheetFault::LabelTaken { line });
        }
        if n >= self.records.len() {
            return Err(SheetFault::BookFull { line });
        }
        if placed.address > 4095 {
            return Err(SheetFault::PastMemory { line });
        }
        self.records[n] = Label {
            name,
            address: placed.address as u16,
        };
        Ok(n + 1)
    }

    /// Takes the names of a text, line by line.
    pub(crate) fn take_lines(&mut self, text: &[u8]) -> Result<usize, SheetFault>
        ensures answer { result ≡ (taking_into self.old text.now).answer }
        ensures records { records_of self.new ≡ over (taking_into self.old text.now).labels (records_of self.old) }
        ensures labels { open_labels self.new ≡ kept result (taking_into self.old text.now).labels (open_labels self.old) }
        ensures lent { self.new.records.ghost_name ≡ self.old.records.ghost_name }
    {
        let mut n = self.count;
        for placed in SheetReader::new(text)? {
            n = self.enter(n, placed?)?;
        }
        self.count = n;
        Ok(n)
    }
}
