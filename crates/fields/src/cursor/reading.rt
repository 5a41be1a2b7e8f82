//! Reading a line field by field.
ghost use Rattle.std.specs.Prelude.{◌≡◌};
ghost use Rattle.fields.specs.Cursors.{left, line_of};
ghost use Rattle.fields.specs.Fields.{fields_of, Next, PartIfAny};

use crate::cursor::Cursor;
use crate::token::Token;

impl<'a> Cursor<'a> {
    /// All fields of a line.
    pub fn new(line: &'a [u8]) -> Cursor<'a>
        ensures line { line_of result ≡ line.now }
        ensures left { left result ≡ fields_of line.now }
    {
        Cursor { line, at: 0 }
    }

    /// The next field, if there is one.
    pub fn next(&mut self) -> Option<Token<'a>>
        ensures line { line_of self.new ≡ line_of self.old }
        ensures next { Next (left self.old) result (left self.new) }
        ensures part { PartIfAny (line_of self.old) result }
    {
        self.skip_spaces();
        let start = self.at;
        let first = self.line.get(start)?;
        match *first {
            b'/' => {
                self.at = self.line.len();
                Some(Token::Comment(&self.line[start..], start))
            }
            b',' => {
                self.at = start + 1;
                Some(Token::Comma(start))
            }
            b'A'..=b'Z' => Some(Token::Name(self.take_word(), start)),
            _ => Some(Token::Number(self.take_word(), start)),
        }
    }
}
