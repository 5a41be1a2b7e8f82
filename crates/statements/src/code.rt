//! What a statement lays.
ghost use Rattle.std.specs.Prelude.{◌≡◌, Some, None};
ghost use Rattle.fields.specs.Cursors.{left};
ghost use Rattle.statements.specs.Forms.{reference_of, decimal_of, hexadecimal_of, code_by, code_of};

use crate::fault::StatementFault;
use crate::reader::LineReader;
use crate::statement::{Code, Operation};
use crate::word::{Radix, operation_of, plain_word_of, radix_of};
use fields::number::hexadecimal;

impl LineReader<'_> {
    /// An operand and perhaps I.
    fn read_reference(mut self, operation: Operation) -> Result<Code, StatementFault>
        ensures { result ≡ reference_of self.entry.line operation (left self.entry.fields) }
    {
        let token = self.fields.next().ok_or(self.no_form())?;
        let indirect = self.read_indirect()?;
        let operand = self.read_operand(token)?;
        Ok(Code::Reference {
            operation,
            operand,
            indirect,
        })
    }

    /// The number of DEC.
    fn read_dec(self) -> Result<Code, StatementFault>
        ensures { result ≡ decimal_of self.entry.line (left self.entry.fields) }
    {
        let word = self.only_word()?;
        Ok(Code::Word(self.read_decimal(word)?))
    }

    /// The number of HEX.
    fn read_hex(self) -> Result<Code, StatementFault>
        ensures { result ≡ hexadecimal_of self.entry.line (left self.entry.fields) }
    {
        let word = self.only_word()?;
        Ok(Code::Word(hexadecimal(word).ok_or(self.no_form())?))
    }

    /// An instruction that stands alone.
    fn read_plain(self, word: u16) -> Result<Code, StatementFault>
        ensures { result ≡ code_by self.entry.line None None (Some word) (left self.entry.fields) }
    {
        self.expect_end()?;
        Ok(Code::Word(word))
    }

    /// What a statement lays, by its first word.
    pub(crate) fn read_code(self, word: &[u8]) -> Result<Code, StatementFault>
        ensures { result ≡ code_of self.entry.line word.now (left self.entry.fields) }
    {
        match (radix_of(word), operation_of(word), plain_word_of(word)) {
            (Some(Radix::Decimal), _, _) => self.read_dec(),
            (Some(Radix::Hexadecimal), _, _) => self.read_hex(),
            (None, Some(operation), _) => self.read_reference(operation),
            (None, None, Some(plain)) => self.read_plain(plain),
            (None, None, None) => Err(self.no_form()),
        }
    }
}
