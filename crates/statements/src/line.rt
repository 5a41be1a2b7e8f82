//! Reading the statement of a line.
ghost use Rattle.std.specs.Prelude.{◌≡◌, ◌+◌, true, length, IfOk, Ok};
ghost use Rattle.fields.specs.Cursors.{left};
ghost use Rattle.fields.specs.Fields.{all_plain, fields_of};
ghost use Rattle.statements.specs.declared.statement.Statement.{Statement};
ghost use Rattle.statements.specs.Grammar.{Form};
ghost use Rattle.statements.specs.Forms.{origin_of, unlabelled_of, labelled_of, behind_comma, named_of, statement_of, line_statement};

use crate::fault::StatementFault;
use crate::reader::LineReader;
use crate::statement::Statement;
use crate::word::label_name;
use fields::Token;
use fields::text::check_bytes;

impl LineReader<'_> {
    /// The number of ORG.
    fn read_origin(self) -> Result<Statement, StatementFault>
        ensures { result ≡ origin_of self.entry.line (left self.entry.fields) }
    {
        let word = self.only_word()?;
        Ok(Statement::Origin(self.read_address(word)?))
    }

    /// A statement with no label.
    fn read_unlabelled(self, word: &[u8]) -> Result<Statement, StatementFault>
        ensures { result ≡ unlabelled_of self.entry.line word.now (left self.entry.fields) }
    {
        match word {
            [b'O', b'R', b'G'] => self.read_origin(),
            [b'E', b'N', b'D'] => {
                self.expect_end()?;
                Ok(Statement::End)
            }
            _ => {
                let code = self.read_code(word)?;
                Ok(Statement::Lays { label: None, code })
            }
        }
    }

    /// A statement behind its label.
    fn read_labelled(mut self, label: &[u8]) -> Result<Statement, StatementFault>
        ensures { result ≡ labelled_of self.entry.line label.now (left self.entry.fields) }
    {
        let Some(Token::Name(word, _)) = self.fields.next() else {
            return Err(self.no_form());
        };
        let name = label_name(label).ok_or(self.no_form())?;
        let code = self.read_code(word)?;
        Ok(Statement::Lays {
            label: Some(name),
            code,
        })
    }

    /// A statement that begins with a word, which is a label if a comma follows directly.
    fn read_named(self, word: &[u8], at: usize) -> Result<Statement, StatementFault>
        ensures { result ≡ named_of self.entry.line word.now (left self.entry.fields) (behind_comma self.entry.line (at + length word.now) (left self.entry.fields)) }
    {
        let mut behind = self;
        if let Some(Token::Comma(place)) = behind.fields.next() {
            if place >= at && place - at == word.len() {
                return behind.read_labelled(word);
            }
        }
        self.read_unlabelled(word)
    }

    /// The statement that the fields of a line make.
    fn read_statement(mut self) -> Result<Statement, StatementFault>
        ensures { result ≡ statement_of self.entry.line (left self.entry.fields) }
    {
        match self.fields.next() {
            None | Some(Token::Comment(_, _)) => Ok(Statement::Blank),
            Some(Token::Name(word, at)) => self.read_named(word, at),
            Some(_) => Err(self.no_form()),
        }
    }
}

/// The statement of a line whose bytes are checked first.
fn read_checked(text: &[u8], line: u16) -> Result<Statement, StatementFault>
    ensures { result ≡ line_statement line text.now }
{
    check_bytes(text, line)?;
    LineReader::new(text, line).read_statement()
}

/// The statement of a line, or its refusal under the line's number.
pub fn read_line(text: &[u8], line: u16) -> Result<Statement, StatementFault>
    ensures statement { result ≡ line_statement line text.now }
    ensures form { IfOk result (λ s. Form (fields_of text.now) s) }
    ensures each { (s : Statement) → all_plain text.now ≡ true → Form (fields_of text.now) s → result ≡ Ok s }
{
    read_checked(text, line)
}
