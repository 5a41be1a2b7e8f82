//! What follows the first word of a statement.
ghost use Rattle.std.specs.Prelude.{◌≡◌, ◌≤◌, IfOk};
ghost use Rattle.fields.specs.Cursors.{left};
ghost use Rattle.fields.specs.Fields.{field_of};
ghost use Rattle.statements.specs.Forms.{indirect_of, address_of, operand_of, decimal_up_to, decimal_word};

use crate::fault::StatementFault;
use crate::reader::LineReader;
use crate::statement::Operand;
use crate::word::label_name;
use fields::Token;
use fields::number::{decimal, hexadecimal};

impl LineReader<'_> {
    /// The refusal of a number out of its range.
    fn out_of_range(&self) -> StatementFault
        ensures { result ≡ StatementFault.OutOfRange self.now.line }
    {
        StatementFault::OutOfRange { line: self.line }
    }

    /// Whether I follows, and nothing after it.
    pub(crate) fn read_indirect(mut self) -> Result<bool, StatementFault>
        ensures { result ≡ indirect_of self.entry.line (left self.entry.fields) }
    {
        match self.fields.next() {
            None | Some(Token::Comment(_, _)) => Ok(false),
            Some(Token::Name([b'I'], _)) => {
                self.expect_end()?;
                Ok(true)
            }
            Some(_) => Err(self.no_form()),
        }
    }

    /// A hexadecimal number up to 4095.
    pub(crate) fn read_address(self, word: &[u8]) -> Result<u16, StatementFault>
        ensures { result ≡ address_of self.entry.line word.now }
    {
        let address = hexadecimal(word).ok_or(self.no_form())?;
        if address <= 4095 {
            Ok(address)
        } else {
            Err(self.out_of_range())
        }
    }

    /// A label, or an address that begins with a digit.
    pub(crate) fn read_operand(self, token: Token) -> Result<Operand, StatementFault>
        ensures { result ≡ operand_of self.entry.line (field_of token.entry) }
    {
        match token {
            Token::Name(word, _) => {
                let name = label_name(word).ok_or(self.no_form())?;
                Ok(Operand::Label(name))
            }
            Token::Number(word, _) => Ok(Operand::Address(self.read_address(word)?)),
            Token::Comma(_) | Token::Comment(_, _) => Err(self.no_form()),
        }
    }

    /// A decimal number up to `most`.
    fn decimal_up_to(self, most: u32, word: &[u8]) -> Result<u32, StatementFault>
        ensures value { result ≡ decimal_up_to self.entry.line most word.now }
        ensures bound { IfOk result (λ n. n ≤ most) }
    {
        let number = decimal(word).ok_or(self.no_form())?;
        if number <= most {
            Ok(number)
        } else {
            Err(self.out_of_range())
        }
    }

    /// A decimal number, perhaps behind a minus, as a word in two's complement.
    pub(crate) fn read_decimal(self, word: &[u8]) -> Result<u16, StatementFault>
        ensures { result ≡ decimal_word self.entry.line word.now }
    {
        if let [b'-', digits @ ..] = word {
            let below_zero = self.decimal_up_to(32768, digits)?;
            Ok(((65536 - below_zero) % 65536) as u16)
        } else {
            let number = self.decimal_up_to(32767, word)?;
            Ok(number as u16)
        }
    }
}
