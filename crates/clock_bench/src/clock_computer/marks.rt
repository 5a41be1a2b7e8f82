//! The instructions of opcode 7: each bit of the word that is up is a mark, and several marks act together.
ghost use Rattle.std.specs.Prelude.{◌≡◌};
ghost use Rattle.machine.specs.Boards.{visible_of};
ghost use Rattle.machine.specs.Parts.{flip_flop, unless_lowered};
ghost use Rattle.machine.specs.Table.{marked_ac, marked_e};
ghost use Rattle.machine.specs.Words.{bit};
ghost use Rattle.clock_bench.specs.ClockComputers.{register_marked, port_marked};

use crate::clock_computer::interrupt::raised;
use machine::word::skipped;
use machine::{Port, Registers, Visible, bit};

// The instruction bench carries the marks of AC, E and IEN out by a match of its own, as the project asks: these stand beside it.

// CLA, then CMA, CIR and CIL joined, then INC.
fn marked_ac(old: Registers) -> u16
    ensures { result ≡ marked_ac old.ir (visible_of old) }
{
    let word = old.ir;
    if bit!(word, 11) {
        0
    } else if bit!(word, 9) | bit!(word, 7) | bit!(word, 6) {
        let complement = if bit!(word, 9) { 65535 - old.ac } else { 0 };
        let right = if bit!(word, 7) {
            old.ac / 2 + if old.e { 32768 } else { 0 }
        } else {
            0
        };
        let left = if bit!(word, 6) {
            (old.ac << 1) + if old.e { 1 } else { 0 }
        } else {
            0
        };
        complement | right | left
    } else if bit!(word, 5) {
        old.ac.wrapping_add(1)
    } else {
        old.ac
    }
}

// CLE, then CIR, CIL and CME joined.
fn marked_e(old: Registers) -> bool
    ensures { result ≡ marked_e old.ir (visible_of old) }
{
    let word = old.ir;
    if bit!(word, 10) {
        false
    } else if bit!(word, 7) | bit!(word, 6) | bit!(word, 8) {
        bit!(word, 7) & bit!(old.ac, 0) | bit!(word, 6) & bit!(old.ac, 15) | bit!(word, 8) & !old.e
    } else {
        old.e
    }
}

// ION and IOF; together they turn IEN.
fn marked_ien(old: Registers) -> bool
    ensures { result ≡ flip_flop (bit 7 old.ir) (bit 6 old.ir) old.ien }
{
    if bit!(old.ir, 7) {
        if bit!(old.ir, 6) { !old.ien } else { true }
    } else if bit!(old.ir, 6) {
        false
    } else {
        old.ien
    }
}

// HLT.
fn marked_s(old: Registers) -> bool
    ensures { result ≡ unless_lowered (bit 0 old.ir) old.s }
{
    if bit!(old.ir, 0) { false } else { old.s }
}

// A register-reference instruction.
pub(super) fn register_reference(old: Registers) -> Registers
    ensures { result ≡ register_marked old }
{
    Registers {
        ac: marked_ac(old),
        e: marked_e(old),
        pc: skipped(old.pc, Visible::from(old).register_skip(old.ir)),
        r: raised(old),
        s: marked_s(old),
        sc: 0,
        ..old
    }
}

// The port after INP and OUT.
fn marked_port(old: Registers) -> Port
    ensures { result ≡ (port_marked old).port }
{
    let taken = bit!(old.ir, 11);
    let given = bit!(old.ir, 10);
    Port {
        inpr: old.port.inpr,
        outr: if given {
            (old.ac % 256) as u8
        } else {
            old.port.outr
        },
        fgi: if taken { false } else { old.port.fgi },
        fgo: if given { false } else { old.port.fgo },
    }
}

// An input-output instruction; INP takes the character in INPR.
pub(super) fn input_output(old: Registers) -> Registers
    ensures { result ≡ port_marked old }
{
    let inp = bit!(old.ir, 11);
    Registers {
        ac: if inp {
            old.ac / 256 * 256 + u16::from(old.port.inpr)
        } else {
            old.ac
        },
        pc: skipped(old.pc, Visible::from(old).port_skip(old.ir)),
        ien: marked_ien(old),
        r: raised(old),
        port: marked_port(old),
        sc: 0,
        ..old
    }
}
