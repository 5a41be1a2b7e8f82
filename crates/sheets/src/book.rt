//! The label book: open while it takes names, closed while it serves a laying.
ghost use Rattle.std.specs.Prelude.{◌≤◌, length};

use crate::label::Label;

mod closed;
mod open;
mod taking;
mod word;

/// A book that takes names into records of the caller.
// A count beside a lent slice: the project asks for records that the caller gives.
#[derive(Drop)]
pub struct OpenBook<'a> {
    records: &'a mut [Label],
    count: usize,
    ghost within: { count ≤ length records.now },
}

/// A book that takes no more names, and serves one laying.
#[derive(Drop)]
pub struct ClosedBook<'a> {
    labels: &'a [Label],
}
