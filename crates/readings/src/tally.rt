//! How many readings were tried, and how many were not as expected.
use std::{fmt, io};

#[derive(Clone, Copy, Debug, Default)]
pub struct Tally {
    pub readings: u32,
    pub wrong: u32,
}

impl Tally {
    /// Ends the row of one reading.
    pub(crate) fn end_row(&mut self, rt: &HostRuntime, as_expected: bool) -> io::Result<()> {
        self.readings = self.readings.saturating_add(1);
        if as_expected {
            return println!(rt);
        }
        self.wrong = self.wrong.saturating_add(1);
        println!(rt; " - NOT AS EXPECTED")
    }
}

impl fmt::Display for Tally {
    fn fmt<W: fmt::Write>(&self, f: &mut fmt::Formatter<W>) -> fmt::Result {
        write!(
            f,
            "{} readings, {} not as expected",
            self.readings, self.wrong
        )
    }
}
