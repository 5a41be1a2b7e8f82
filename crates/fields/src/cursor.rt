//! A line that is read field by field.
ghost use Rattle.std.specs.Prelude.{◌≤◌, length};

mod reading;
mod skipping;

/// The fields of a line that are still to be read.
// The whole line and a place in it: each field is told with its place.
#[derive(Clone, Copy)]
pub struct Cursor<'a> {
    line: &'a [u8],
    at: usize,
    ghost within: { at ≤ length line.now },
}
