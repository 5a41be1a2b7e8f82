//! Lines of a text.
ghost use Rattle.std.specs.Prelude.{◌≡◌, ◌==◌, position};
ghost use Rattle.fields.specs.Fields.{plain, all_plain, checked};
ghost use Rattle.fields.specs.Lines.{Split, Leads};

use crate::fault::FieldFault;

/// Where the first line ends, if byte 10 ends it.
fn line_end(text: &[u8]) -> Option<usize>
    ensures { result ≡ position (λ b. b == 10) text.now }
{
    text.iter().position(|b| *b == b'\n')
}

/// The first line of a text, and the text behind it; none where the text is empty.
pub fn first_line(text: &[u8]) -> Option<(&[u8], &[u8])>
    ensures split { Split text.now result }
    ensures leads { Leads text.now result }
{
    match line_end(text) {
        Some(n) => Some((&text[..n], &text[n + 1..])),
        None if text.is_empty() => None,
        None => Some((text, &[])),
    }
}

/// Whether a byte may stand in a line.
fn is_plain(b: u8) -> bool
    ensures { result ≡ plain b }
{
    b >= 32 && b <= 126
}

/// Whether no byte forbids the line.
fn is_all_plain(line: &[u8]) -> bool
    ensures { result ≡ all_plain line.now }
{
    line.iter().all(|b| is_plain(*b))
}

/// Refuses a line, under its number, with a byte that may not stand in it.
pub fn check_bytes(line: &[u8], number: u16) -> Result<(), FieldFault>
    ensures { result ≡ checked number line.now }
{
    if is_all_plain(line) {
        Ok(())
    } else {
        Err(FieldFault::BadByte { line: number })
    }
}
