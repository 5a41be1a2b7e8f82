//! What a refusal tells.
use std::fmt;

/// The number of a refusal, the line of the sheet, and the layer that first saw it: 1 fields, 2 statement, 3 sheet.
// Numbers, and no enums: they are what a refusal tells. The kinds are the fault enums.
#[derive(Clone, Copy, Debug, PartialEq, Eq)]
pub struct Report {
    pub number: u8,
    pub line: u16,
    pub layer: u8,
}

impl fmt::Display for Report {
    ghost use Rattle.std.specs.Prelude.{Some};
    ghost use Rattle.fields.specs.Reports.{report_text};

    ghost output = { λ r. Some (report_text r) };

    fn fmt<W: fmt::Write>(&self, f: &mut fmt::Formatter<W>) -> fmt::Result {
        let Report {
            number,
            line,
            layer,
        } = *self;
        write!(f, "{number} on line {line}, layer {layer}")
    }
}
