//! Whether the marks of a word skip the next instruction.
ghost use Rattle.std.specs.Prelude.{◌≡◌};
ghost use Rattle.machine.specs.Table.{register_skip, port_skip};

use crate::bit;
use crate::registers::Visible;

impl Visible {
    /// SPA, SNA, SZA and SZE.
    pub fn register_skip(self, word: u16) -> bool
        ensures { result ≡ register_skip word self }
    {
        bit!(word, 4) & !bit!(self.ac, 15)
            | bit!(word, 3) & bit!(self.ac, 15)
            | bit!(word, 2) & (self.ac == 0)
            | bit!(word, 1) & !self.e
    }

    /// SKI and SKO.
    pub fn port_skip(self, word: u16) -> bool
        ensures { result ≡ port_skip word self }
    {
        bit!(word, 9) & self.port.fgi | bit!(word, 8) & self.port.fgo
    }
}
