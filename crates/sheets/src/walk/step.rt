//! Reading a sheet line by line.
ghost use Rattle.std.specs.Prelude.{◌≡◌, ◌+◌, ◌<◌, length, IfOk, OnOk, MatchResult};
ghost use Rattle.sheets.specs.Sheets.{refused, sheet_of};
ghost use Rattle.sheets.specs.Walks.{ahead, Leads};

use crate::fault::SheetFault;
use crate::placed::{Placed, Step};
use crate::walk::Walk;
use fields::text::first_line;
use statements::{Statement, read_line};

impl<'a> Walk<'a> {
    /// A sheet of which nothing is read yet.
    pub(crate) fn new(text: &'a [u8]) -> Result<Walk<'a>, SheetFault>
        ensures ahead { MatchResult result (λ walk. sheet_of text.now ≡ ahead walk) (λ e. sheet_of text.now ≡ refused e) }
        ensures lines { IfOk result (λ walk. walk.lines ≡ 0) }
        ensures bytes { IfOk result (λ walk. walk.rest.now ≡ text.now) }
    {
        if text.len() > 65535 {
            return Err(SheetFault::TextTooLong);
        }
        Ok(Walk {
            rest: text,
            lines: 0,
            address: 0,
        })
    }

    /// One line more.
    pub(crate) fn step(&mut self) -> Result<Step, SheetFault>
        ensures leads { Leads (ahead self.old) result (ahead self.new) }
        ensures lines { OnOk result (self.new.lines ≡ self.old.lines + 1) }
        ensures falls { OnOk result (length self.new.rest.now < length self.old.rest.now) }
    {
        let Some((line, rest)) = first_line(self.rest) else {
            return Err(SheetFault::NoEnd { line: self.lines });
        };
        let lines = self.lines + 1;
        let statement = read_line(line, lines)?;
        let at = self.address;
        let (address, step) = match statement {
            Statement::Blank => (at, Step::Nothing),
            Statement::Origin(origin) => (u32::from(origin), Step::Nothing),
            Statement::End => (at, Step::End),
            Statement::Lays { label, code } => {
                let placed = Placed {
                    line: lines,
                    address: at,
                    label,
                    code,
                };
                (at + 1, Step::Lays(placed))
            }
        };
        *self = Walk {
            rest,
            lines,
            address,
        };
        Ok(step)
    }
}
