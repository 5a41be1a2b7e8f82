//! The marks of a word of opcode 7, which act together.
use crate::second::Second;
use crate::second::merge::Merge;
use crate::second::numbers::Numbers;
use crate::second::register::Register;

/// An instruction that is a mark in a word of opcode 7.
#[derive(Clone, Copy)]
enum Mark {
    Cla,
    Cle,
    Cma,
    Cme,
    Cir,
    Cil,
    Inc,
    Spa,
    Sna,
    Sza,
    Sze,
    Hlt,
    Inp,
    Out,
    Ski,
    Sko,
    Ion,
    Iof,
}

use self::Mark::*;

/// The eighteen, by the word that has this mark alone.
// Kept as a table of pairs: it is the textbook's, and every use goes through all of it with the word beside the mark.
static MARKS: [(Mark, u32); 18] = [
    (Cla, 0x7800),
    (Cle, 0x7400),
    (Cma, 0x7200),
    (Cme, 0x7100),
    (Cir, 0x7080),
    (Cil, 0x7040),
    (Inc, 0x7020),
    (Spa, 0x7010),
    (Sna, 0x7008),
    (Sza, 0x7004),
    (Sze, 0x7002),
    (Hlt, 0x7001),
    (Inp, 0xF800),
    (Out, 0xF400),
    (Ski, 0xF200),
    (Sko, 0xF100),
    (Ion, 0xF080),
    (Iof, 0xF040),
];

/// Whether a word of opcode 7 has the mark of that code: the group is the same, and its bit is up.
fn is_marked(word: u32, code: u32) -> bool {
    let mark = code % 4096;
    word / 4096 == code / 4096 && mark > 0 && word / mark % 2 == 1
}

/// All that the marks of a word ask for.
#[derive(Clone, Copy, Default)]
struct Asked {
    ac: Merge,
    e: Merge,
    ien: Merge,
    skip: bool,
}

impl Asked {
    /// One mark more: what it asks of AC, E, IEN and PC, as the registers stood before.
    fn ask(&mut self, mark: Mark, n: &Numbers) {
        let ac = n.get(Register::Ac);
        let e = n.get(Register::E);
        match mark {
            Cla => self.ac.clear(),
            Cle => self.e.clear(),
            Cma => self.ac.load(ac ^ 0xFFFF),
            Cme => self.e.load(e ^ 1),
            Cir => {
                self.ac.load(ac / 2 | if e == 1 { 0x8000 } else { 0 });
                self.e.load(ac % 2);
            }
            Cil => {
                self.ac.load(ac % 0x8000 * 2 | e);
                self.e.load(ac / 0x8000);
            }
            Inc => self.ac.raise(),
            Spa => self.skip |= ac < 0x8000,
            Sna => self.skip |= ac >= 0x8000,
            Sza => self.skip |= ac == 0,
            Sze => self.skip |= e == 0,
            Ski => self.skip |= n.up(Register::Fgi),
            Sko => self.skip |= n.up(Register::Fgo),
            Ion => self.ien.load(1),
            Iof => self.ien.clear(),
            Inp => self.ac.load(ac / 256 * 256 | n.get(Register::Inpr)),
            Hlt | Out => {}
        }
    }
}

impl Second {
    /// Carries out all marks of a word together.
    pub(crate) fn mark(&mut self, word: u32) {
        let before = self.numbers;
        let mut asked = Asked::default();
        for (mark, code) in MARKS.iter() {
            if is_marked(word, *code) {
                asked.ask(*mark, &before);
                match mark {
                    Hlt => self.numbers.lower(Register::S),
                    Inp => self.numbers.lower(Register::Fgi),
                    Out => {
                        self.numbers
                            .put(Register::Outr, before.get(Register::Ac) % 256);
                        self.numbers.lower(Register::Fgo);
                    }
                    _ => {}
                }
            }
        }
        let ac = asked.ac.of(before.get(Register::Ac), 16);
        self.numbers.put(Register::Ac, ac);
        let e = asked.e.of(before.get(Register::E), 1);
        self.numbers.put(Register::E, e);
        let ien = asked.ien.of_turning(before.get(Register::Ien));
        self.numbers.put(Register::Ien, ien);
        if asked.skip {
            self.step();
        }
    }
}
