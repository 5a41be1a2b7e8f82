//! The marks of a word of opcode 7 with bit 15 down. All read the registers as they stood before.
ghost use Rattle.std.specs.Prelude.{◌≡◌, bit_or};
ghost use Rattle.machine.specs.Words.{bit, complement, circulated_right, circulated_left};
ghost use Rattle.machine.specs.Parts.{source};
ghost use Rattle.machine.specs.Table.{marked_ac, marked_e, register_marks};
ghost use Rattle.cycle_bench.specs.CycleComputers.{registers_of};

use crate::choice::choose;
use crate::cycle_computer::CycleComputer;
use machine::bit;
use machine::word::skipped;

impl CycleComputer {
    /// What CMA, CIR and CIL bring to AC, put together.
    fn sources(&self, word: u16) -> u16
        ensures { result ≡ bit_or (bit_or (source (bit 9 word) (complement self.now.ac)) (source (bit 7 word) (circulated_right self.now.e self.now.ac))) (source (bit 6 word) (circulated_left self.now.e self.now.ac)) }
    {
        let complement = 65535 - self.ac;
        let right = self.ac / 2 + choose(self.e, 32768, 0);
        let left = (self.ac << 1) + choose(self.e, 1, 0);
        choose(bit!(word, 9), complement, 0)
            | choose(bit!(word, 7), right, 0)
            | choose(bit!(word, 6), left, 0)
    }

    /// AC after CLA, then CMA, CIR and CIL, then INC.
    fn marked_ac(&self, word: u16) -> u16
        ensures { result ≡ marked_ac word (registers_of self.now) }
    {
        match self.ac {
            _ if bit!(word, 11) => 0,
            _ if bit!(word, 9) | bit!(word, 7) | bit!(word, 6) => self.sources(word),
            ac if bit!(word, 5) => ac.wrapping_add(1),
            ac => ac,
        }
    }

    /// E after CLE, then CIR, CIL and CME.
    fn marked_e(&self, word: u16) -> bool
        ensures { result ≡ marked_e word (registers_of self.now) }
    {
        match self.e {
            _ if bit!(word, 10) => false,
            e if bit!(word, 7) | bit!(word, 6) | bit!(word, 8) => {
                bit!(word, 7) & bit!(self.ac, 0)
                    | bit!(word, 6) & bit!(self.ac, 15)
                    | bit!(word, 8) & !e
            }
            e => e,
        }
    }

    /// All of them; HLT lowers S. Answers their clocks.
    pub(super) fn register_marks(&mut self, word: u16) -> u16
        ensures clocks { result ≡ 4 }
        ensures registers { registers_of self.new ≡ register_marks word (registers_of self.old) }
    {
        let ac = self.marked_ac(word);
        let e = self.marked_e(word);
        let pc = skipped(self.pc, self.visible().register_skip(word));
        self.ac = ac;
        self.e = e;
        self.pc = pc;
        self.s = choose(bit!(word, 0), false, self.s);
        4
    }
}
