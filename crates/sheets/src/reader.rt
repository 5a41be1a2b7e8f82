//! A sheet that is read statement by statement.
use crate::fault::SheetFault;
use crate::placed::{Placed, Step};
use crate::walk::Walk;

/// The statements of a sheet that lay a word, up to END or the first refusal. After either it gives nothing more.
#[derive(Clone, Copy)]
pub(crate) struct SheetReader<'a> {
    walk: Option<Walk<'a>>,
}

impl<'a> SheetReader<'a> {
    ghost use Rattle.std.specs.Prelude.{◌≡◌, ◌≤◌, IfOk, MatchResult};
    ghost use Rattle.sheets.specs.Readers.{most_left, sheet_left};
    ghost use Rattle.sheets.specs.Sheets.{refused, sheet_of};

    /// All statements of a text, unless the text is too long.
    pub(crate) fn new(text: &'a [u8]) -> Result<SheetReader<'a>, SheetFault>
        ensures left { MatchResult result (λ reader. sheet_of text.now ≡ sheet_left reader) (λ e. sheet_of text.now ≡ refused e) }
        ensures short { IfOk result (λ reader. most_left reader ≤ 65536) }
    {
        let walk = Walk::new(text)?;
        Ok(SheetReader { walk: Some(walk) })
    }
}

impl Iterator for SheetReader<'_> {
    ghost use Rattle.std.specs.Iterator.{at_most};
    ghost use Rattle.sheets.specs.Readers.{Gives, most_left};

    type Item = Result<Placed, SheetFault>;

    ghost next_gives = { Gives };

    ghost remaining = { λ reader. at_most (most_left reader) };

    fn next(&mut self) -> Option<Result<Placed, SheetFault>> {
        let mut walk = self.walk.take()?;
        loop {
            match walk.step() {
                Ok(Step::Nothing) => {}
                Ok(Step::End) => return None,
                Ok(Step::Lays(placed)) => {
                    self.walk = Some(walk);
                    return Some(Ok(placed));
                }
                Err(fault) => return Some(Err(fault)),
            }
        }
    }
}
