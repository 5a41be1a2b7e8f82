//! How a paper is made, printed on, read and handed back.
ghost use Rattle.std.specs.Prelude.{◌≡◌, ◌+◌, ◌<◌, [], ◌++◌, vec_len, slice_set};
ghost use Rattle.line.specs.Printing.{printed_on, blank_of, Printing};

use crate::paper::Paper;
use crate::status::Status;

impl Paper {
    /// A paper with nothing on it, which takes as many bytes as there are.
    pub(crate) fn new(bytes: Vec<u8>) -> Self
        ensures printed { printed_on result ≡ [] }
        ensures blank { blank_of result ≡ bytes.items }
    {
        Paper { bytes, written: 0 }
    }

    /// The bytes on the paper.
    pub(crate) fn printed(&self) -> &[u8]
        ensures { result.now ≡ printed_on self.now }
    {
        &self.bytes[0..self.written]
    }

    /// The whole paper: the bytes on it, then the places behind them.
    pub(crate) fn into_bytes(self) -> Vec<u8>
        ensures { result.items ≡ printed_on self ++ blank_of self }
    {
        self.bytes
    }

    /// Writes a byte behind the last one.
    fn write(&mut self, byte: u8)
        requires { self.old.written < vec_len self.old.bytes }
        ensures bytes { self.new.bytes.items ≡ slice_set self.old.bytes.items self.old.written byte }
        ensures written { self.new.written ≡ self.old.written + 1 }
    {
        self.bytes[self.written] = byte;
        self.written += 1;
    }

    /// Prints the output register if FGO is down and the paper is not full, and says whether it did.
    pub(crate) fn print(&mut self, status: Status) -> bool
        ensures { Printing (printed_on self.old) (blank_of self.old) status result (printed_on self.new) (blank_of self.new) }
    {
        if status.fgo || self.written >= self.bytes.len() {
            return false;
        }
        self.write(status.outr);
        true
    }
}
