//! What the third layer refuses.
ghost use Rattle.std.specs.Prelude.{◌≡◌};
ghost use Rattle.sheets.specs.declared.fault.LayingFault.TheVariants.{Sheet};
ghost use Rattle.sheets.specs.declared.fault.SheetFault.TheVariants.{Statement};
ghost use Rattle.sheets.specs.Faults.{number_of, reported};

use fields::Report;
use statements::StatementFault;
use std::error::Error;
use std::fmt;

/// A text that is no sheet, or that the book does not serve.
#[derive(Clone, Copy, Debug)]
pub enum SheetFault {
    /// What a layer below refused.
    Statement(StatementFault),
    /// A text over 65,535 bytes.
    TextTooLong,
    /// A label that is in the book already, or before an earlier statement.
    LabelTaken { line: u16 },
    /// A label for which the book has no record left.
    BookFull { line: u16 },
    /// A word at address 4096.
    PastMemory { line: u16 },
    /// A label that is not in the book.
    LabelUnknown { line: u16 },
    /// A text that ends without END.
    NoEnd { line: u16 },
}

/// A laying that is turned down.
#[derive(Clone, Copy, Debug)]
pub enum LayingFault {
    /// A memory of another size than 4096 words.
    MemorySize,
    /// A text that cannot be laid.
    Sheet(SheetFault),
}

impl SheetFault {
    /// Its number, line and layer.
    pub fn report(self) -> Report
        ensures { result ≡ reported self }
    {
        let (number, line) = match self {
            SheetFault::Statement(fault) => return fault.report(),
            SheetFault::TextTooLong => (5, 0),
            SheetFault::LabelTaken { line } => (9, line),
            SheetFault::BookFull { line } => (10, line),
            SheetFault::PastMemory { line } => (11, line),
            SheetFault::LabelUnknown { line } => (12, line),
            SheetFault::NoEnd { line } => (13, line),
        };
        Report {
            number,
            line,
            layer: 3,
        }
    }
}

impl LayingFault {
    /// Its number.
    pub fn number(self) -> u8
        ensures { result ≡ number_of self }
    {
        match self {
            LayingFault::MemorySize => 1,
            LayingFault::Sheet(fault) => fault.report().number,
        }
    }
}

impl From<StatementFault> for SheetFault {
    ghost from_gives = { λ e r. r ≡ Statement e };

    fn from(e: StatementFault) -> SheetFault {
        SheetFault::Statement(e)
    }
}

impl From<SheetFault> for LayingFault {
    ghost from_gives = { λ e r. r ≡ Sheet e };

    fn from(e: SheetFault) -> LayingFault {
        LayingFault::Sheet(e)
    }
}

impl fmt::Display for SheetFault {
    ghost use Rattle.std.specs.Prelude.{Some};
    ghost use Rattle.sheets.specs.Faults.{meaning};

    ghost output = { λ f. Some (meaning f) };

    fn fmt<W: fmt::Write>(&self, f: &mut fmt::Formatter<W>) -> fmt::Result {
        match self {
            SheetFault::Statement(fault) => write!(f, "{fault}"),
            SheetFault::TextTooLong => f.write_str("the text has more than 65,535 bytes"),
            SheetFault::LabelTaken { .. } => {
                f.write_str("a label that stands before an earlier statement too")
            }
            SheetFault::BookFull { .. } => f.write_str("a label for which the book has no room"),
            SheetFault::PastMemory { .. } => f.write_str("a word past address FFF"),
            SheetFault::LabelUnknown { .. } => f.write_str(
                "a label that stands before no statement",
            ),
            SheetFault::NoEnd { .. } => f.write_str("the sheet has no END"),
        }
    }
}

impl fmt::Display for LayingFault {
    ghost use Rattle.std.specs.Prelude.{Some};
    ghost use Rattle.sheets.specs.Faults.{laying_meaning};

    ghost output = { λ f. Some (laying_meaning f) };

    fn fmt<W: fmt::Write>(&self, f: &mut fmt::Formatter<W>) -> fmt::Result {
        match self {
            LayingFault::MemorySize => f.write_str("the memory has not 4096 words"),
            LayingFault::Sheet(fault) => write!(f, "{fault}"),
        }
    }
}

impl Error for SheetFault {}

impl Error for LayingFault {}
