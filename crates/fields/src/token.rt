//! Fields of a line.

/// A field: a part of its line, and the place of its first byte.
#[derive(Clone, Copy, Debug)]
pub enum Token<'a> {
    Name(&'a [u8], usize),
    Number(&'a [u8], usize),
    Comma(usize),
    Comment(&'a [u8], usize),
}
