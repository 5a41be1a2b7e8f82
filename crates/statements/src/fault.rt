//! What the second layer refuses.
ghost use Rattle.std.specs.Prelude.{◌≡◌};
ghost use Rattle.statements.specs.declared.fault.StatementFault.TheVariants.{Field};
ghost use Rattle.statements.specs.Faults.{reported};

use fields::{FieldFault, Report};
use std::error::Error;
use std::fmt;

/// A line that is no statement.
#[derive(Clone, Copy, Debug)]
pub enum StatementFault {
    /// What the first layer refused.
    Field(FieldFault),
    /// Fields of no form.
    NoForm { line: u16 },
    /// A number out of its range.
    OutOfRange { line: u16 },
}

impl StatementFault {
    /// Its number, line and layer.
    pub fn report(self) -> Report
        ensures { result ≡ reported self }
    {
        let (number, line) = match self {
            StatementFault::Field(fault) => return fault.report(),
            StatementFault::NoForm { line } => (7, line),
            StatementFault::OutOfRange { line } => (8, line),
        };
        Report {
            number,
            line,
            layer: 2,
        }
    }
}

impl From<FieldFault> for StatementFault {
    ghost from_gives = { λ e r. r ≡ Field e };

    fn from(e: FieldFault) -> StatementFault {
        StatementFault::Field(e)
    }
}

impl fmt::Display for StatementFault {
    ghost use Rattle.std.specs.Prelude.{Some};
    ghost use Rattle.statements.specs.Faults.{meaning};

    ghost output = { λ f. Some (meaning f) };

    fn fmt<W: fmt::Write>(&self, f: &mut fmt::Formatter<W>) -> fmt::Result {
        match self {
            StatementFault::Field(fault) => write!(f, "{fault}"),
            StatementFault::NoForm { .. } => f.write_str("a statement of no form"),
            StatementFault::OutOfRange { .. } => f.write_str("a number out of its range"),
        }
    }
}

impl Error for StatementFault {}
