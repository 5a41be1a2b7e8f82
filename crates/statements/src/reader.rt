//! A line that is read field by field, and its number, which each refusal tells.
ghost use Rattle.std.specs.Prelude.{◌≡◌};

use crate::fault::StatementFault;
use fields::{Cursor, Token};

/// The fields of a line that are still to be read, and the number of the line.
#[derive(Clone, Copy)]
pub(crate) struct LineReader<'a> {
    pub fields: Cursor<'a>,
    pub line: u16,
}

impl<'a> LineReader<'a> {
    ghost use Rattle.fields.specs.Cursors.{left};
    ghost use Rattle.fields.specs.Fields.{fields_of};
    ghost use Rattle.fields.specs.Outcomes.{seen};
    ghost use Rattle.statements.specs.declared.fault.StatementFault.TheVariants.{NoForm};
    ghost use Rattle.statements.specs.Forms.{ended, only_word};

    /// A line of which nothing is read yet.
    pub(crate) fn new(text: &'a [u8], line: u16) -> LineReader<'a>
        ensures fields { left result.fields ≡ fields_of text.now }
        ensures line { result.line ≡ line }
    {
        LineReader {
            fields: Cursor::new(text),
            line,
        }
    }

    /// The refusal of fields of no form.
    pub(crate) fn no_form(&self) -> StatementFault
        ensures { result ≡ NoForm self.now.line }
    {
        StatementFault::NoForm { line: self.line }
    }

    /// Nothing but a comment may follow.
    pub(crate) fn expect_end(mut self) -> Result<(), StatementFault>
        ensures { result ≡ ended self.entry.line (left self.entry.fields) }
    {
        match self.fields.next() {
            None | Some(Token::Comment(_, _)) => Ok(()),
            Some(_) => Err(self.no_form()),
        }
    }

    /// One word, and nothing more.
    pub(crate) fn only_word(mut self) -> Result<&'a [u8], StatementFault>
        ensures { seen result ≡ only_word self.entry.line (left self.entry.fields) }
    {
        let Some(Token::Name(word, _) | Token::Number(word, _)) = self.fields.next() else {
            return Err(self.no_form());
        };
        self.expect_end()?;
        Ok(word)
    }
}
