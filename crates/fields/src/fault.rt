//! What the first layer refuses.
ghost use Rattle.std.specs.Prelude.{◌≡◌};
ghost use Rattle.fields.specs.Faults.{reported};

use crate::report::Report;
use std::error::Error;
use std::fmt;

/// A line that cannot be taken apart into fields.
#[derive(Clone, Copy, Debug)]
pub enum FieldFault {
    /// A byte other than 10 or 32 to 126.
    BadByte { line: u16 },
}

impl FieldFault {
    /// Its number, line and layer.
    pub fn report(self) -> Report
        ensures { result ≡ reported self }
    {
        let FieldFault::BadByte { line } = self;
        Report {
            number: 6,
            line,
            layer: 1,
        }
    }
}

impl fmt::Display for FieldFault {
    ghost use Rattle.std.specs.Prelude.{Some};
    ghost use Rattle.fields.specs.Faults.{meaning};

    ghost output = { λ f. Some (meaning f) };

    fn fmt<W: fmt::Write>(&self, f: &mut fmt::Formatter<W>) -> fmt::Result {
        match self {
            FieldFault::BadByte { .. } => {
                f.write_str("a byte that may not stand in a sheet: only 32 to 126 may")
            }
        }
    }
}

impl Error for FieldFault {}
