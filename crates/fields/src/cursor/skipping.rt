//! Where fields start and end.
ghost use Rattle.std.specs.Prelude.{◌≡◌, ◌≢◌, ◌+◌, ◌-◌, ◌<◌, ◌≤◌, ◌==◌, length, take, drop, slice_index};
ghost use Rattle.std.specs.List.{prefix_len, position_or_len};
ghost use Rattle.fields.specs.Cursors.{left, line_of};
ghost use Rattle.fields.specs.Fields.{ends, word_length};

use crate::cursor::Cursor;

/// Whether a byte ends a word.
fn ends_word(b: u8) -> bool
    ensures { result ≡ ends b }
{
    b == b' ' || b == b',' || b == b'/'
}

/// How many spaces stand at the front.
fn spaces(bytes: &[u8]) -> usize
    ensures count { result ≡ prefix_len (λ b. b == 32) bytes.now }
    ensures within { result ≤ length bytes.now }
{
    bytes.iter().take_while(|b| **b == b' ').count()
}

/// How many bytes at the front belong to one word.
fn word_length(bytes: &[u8]) -> usize
    ensures count { result ≡ position_or_len ends bytes.now }
    ensures within { result ≤ length bytes.now }
{
    bytes.iter().take_while(|b| !ends_word(**b)).count()
}

impl<'a> Cursor<'a> {
    /// Goes to where the next field starts, or to the end of the line.
    pub(crate) fn skip_spaces(&mut self)
        ensures line { line_of self.new ≡ line_of self.old }
        ensures left { left self.new ≡ left self.old }
        ensures stops { self.new.at < length (line_of self.new) → slice_index (line_of self.new) self.new.at ≢ 32 }
    {
        self.at += spaces(&self.line[self.at..]);
    }

    /// The word that starts with the byte ahead, whatever that is; goes behind it.
    pub(crate) fn take_word(&mut self) -> &'a [u8]
        requires { self.old.at < length (line_of self.old) }
        ensures line { line_of self.new ≡ line_of self.old }
        ensures place { self.new.at ≡ self.old.at + 1 + word_length (drop (self.old.at + 1) (line_of self.old)) }
        ensures word { result.now ≡ take (self.new.at - self.old.at) (drop self.old.at (line_of self.old)) }
    {
        let start = self.at;
        self.at += 1 + word_length(&self.line[start + 1..]);
        &self.line[start..self.at]
    }
}
