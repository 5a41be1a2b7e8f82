//! Bytes of any kind as text that prints.
ghost use Rattle.std.specs.Prelude.{◌≡◌, IfOk};
ghost use Rattle.rows.specs.Escapes.{escaped_byte, escaped_of, Printable, Tells};

use crate::piece::{Piece, joined};
use digits::byte_digits;
use std::alloc::{AllocError, Global};

/// A byte stands as itself if it prints, else by an escape.
impl Piece for u8 {
    ghost written = { escaped_byte };

    fn push_to(&self, text: &mut Vec<u8>) -> Result<(), AllocError> {
        match *self {
            b'\\' => text.extend_from_slice(b"\\\\"),
            b'\n' => text.extend_from_slice(b"\\n"),
            byte @ 32..=126 => text.extend_from_slice(&[byte]),
            byte => {
                let [high, low] = byte_digits(byte);
                text.extend_from_slice(&[b'\\', b'x', high, low])
            }
        }
    }
}

/// Bytes as text: those from 32 to 126 as they are, but a backslash twice, a line end as `\n` and any other as `\xHH`.
pub fn escaped(heap: Global, bytes: &[u8]) -> Result<Vec<u8>, AllocError>
    ensures text { IfOk result (λ v. v.items ≡ escaped_of bytes.now) }
    ensures printable { IfOk result (λ v. Printable v.items) }
    ensures tells { IfOk result (λ v. Tells v.items bytes.now) }
{
    joined(heap, bytes)
}
