//! T4 to T6: the memory-reference instructions.
ghost use Rattle.std.specs.Prelude.{◌≡◌, ◌<◌, true};
ghost use Rattle.memory.specs.Contents.{Contents};
ghost use Rattle.machine.specs.Boards.{reaches_t5};
ghost use Rattle.machine.specs.Words.{opcode};
ghost use Rattle.clock_bench.specs.ClockComputers.{Moves, loaded};

use crate::clock_computer::interrupt::raised;
use machine::Registers;
use machine::word::up12;
use memory::Memory;

// STA: M[AR] ← AC. BUN: PC ← AR. BSA: M[AR] ← PC, AR ← AR + 1. The others: DR ← M[AR].
pub(super) fn t4<M: Memory>(old: Registers, memory: &mut M) -> Registers
    requires { opcode old.ir < 7 }
    ensures { Moves 4 old (M.contents memory.old) result (M.contents memory.new) }
{
    let r = raised(old);
    match old.ir / 4096 % 8 {
        3 => {
            memory.store(old.ar, old.ac);
            Registers { r, sc: 0, ..old }
        }
        4 => Registers {
            pc: old.ar % 4096,
            r,
            sc: 0,
            ..old
        },
        5 => {
            memory.store(old.ar, old.pc);
            Registers {
                ar: up12(old.ar),
                r,
                sc: 5,
                ..old
            }
        }
        _ => Registers {
            dr: memory.fetch(old.ar),
            r,
            sc: 5,
            ..old
        },
    }
}

// The end of AND, ADD and LDA.
fn loaded(old: Registers, ac: u16, e: bool) -> Registers
    ensures { result ≡ loaded ac e old }
{
    Registers {
        ac,
        e,
        r: raised(old),
        sc: 0,
        ..old
    }
}

// AND: AC ← AC ∧ DR. ADD: AC ← AC + DR, E ← carry. LDA: AC ← DR. BSA: PC ← AR. ISZ: DR ← DR + 1.
pub(super) fn t5(old: Registers) -> Registers
    requires { reaches_t5 (opcode old.ir) ≡ true }
    ensures { (contents : Contents) → Moves 5 old contents result contents }
{
    match old.ir / 4096 % 8 {
        0 => loaded(old, old.ac & old.dr, old.e),
        1 => {
            // `as`: with `u32::from` the proof did not close
            let carry = old.ac as u32 + old.dr as u32 >= 65536;
            loaded(old, old.ac.wrapping_add(old.dr), carry)
        }
        2 => loaded(old, old.dr, old.e),
        5 => Registers {
            pc: old.ar % 4096,
            r: raised(old),
            sc: 0,
            ..old
        },
        _ => Registers {
            dr: old.dr.wrapping_add(1),
            r: raised(old),
            sc: 6,
            ..old
        },
    }
}

// ISZ: M[AR] ← DR, and PC ← PC + 1 where DR is zero.
pub(super) fn t6<M: Memory>(old: Registers, memory: &mut M) -> Registers
    requires { opcode old.ir ≡ 6 }
    ensures { Moves 6 old (M.contents memory.old) result (M.contents memory.new) }
{
    memory.store(old.ar, old.dr);
    let r = raised(old);
    if old.dr == 0 {
        Registers {
            pc: up12(old.pc),
            r,
            sc: 0,
            ..old
        }
    } else {
        Registers { r, sc: 0, ..old }
    }
}
