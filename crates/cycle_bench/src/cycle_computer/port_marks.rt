//! The marks of a word of opcode 7 with bit 15 up. All read the registers as they stood before.
ghost use Rattle.std.specs.Prelude.{◌≡◌};
ghost use Rattle.machine.specs.Words.{bit};
ghost use Rattle.machine.specs.Parts.{flip_flop};
ghost use Rattle.machine.specs.Table.{port_marks};
ghost use Rattle.cycle_bench.specs.CycleComputers.{registers_of};

use crate::choice::choose;
use crate::cycle_computer::CycleComputer;
use machine::bit;
use machine::word::skipped;

impl CycleComputer {
    /// IEN after ION and IOF, which together turn it over.
    fn marked_ien(&self, word: u16) -> bool
        ensures { result ≡ flip_flop (bit 7 word) (bit 6 word) self.now.ien }
    {
        match bit!(word, 7) {
            true if bit!(word, 6) => !self.ien,
            true => true,
            false if bit!(word, 6) => false,
            false => self.ien,
        }
    }

    /// All of them; INP takes INPR, OUT fills OUTR. Answers their clocks.
    pub(super) fn port_marks(&mut self, word: u16) -> u16
        ensures clocks { result ≡ 4 }
        ensures registers { registers_of self.new ≡ port_marks word (registers_of self.old) }
    {
        let ien = self.marked_ien(word);
        let pc = skipped(self.pc, self.visible().port_skip(word));
        let ac = self.ac;
        self.ac = choose(
            bit!(word, 11),
            ac / 256 * 256 + u16::from(self.port.inpr),
            ac,
        );
        self.port.fgi = choose(bit!(word, 11), false, self.port.fgi);
        self.port.outr = choose(bit!(word, 10), (ac % 256) as u8, self.port.outr);
        self.port.fgo = choose(bit!(word, 10), false, self.port.fgo);
        self.ien = ien;
        self.pc = pc;
        4
    }
}
