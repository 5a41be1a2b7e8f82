//! T0 to T2: a word is fetched and decoded, or the interrupt cycle is made. AR and PC take 12 bits of the bus.
ghost use Rattle.memory.specs.Contents.{Contents};
ghost use Rattle.clock_bench.specs.ClockComputers.{Moves};

use machine::Registers;
use machine::word::up12;
use memory::Memory;

// AR ← PC. In the interrupt cycle AR ← 0, TR ← PC.
pub(super) fn t0(old: Registers) -> Registers
    ensures { (contents : Contents) → Moves 0 old contents result contents }
{
    if old.r {
        Registers {
            ar: 0,
            tr: old.pc,
            sc: 1,
            ..old
        }
    } else {
        Registers {
            ar: old.pc % 4096,
            sc: 1,
            ..old
        }
    }
}

// IR ← M[AR], PC ← PC + 1. In the interrupt cycle M[AR] ← TR, PC ← 0.
pub(super) fn t1<M: Memory>(old: Registers, memory: &mut M) -> Registers
    ensures { Moves 1 old (M.contents memory.old) result (M.contents memory.new) }
{
    if old.r {
        memory.store(old.ar, old.tr);
        Registers {
            pc: 0,
            sc: 2,
            ..old
        }
    } else {
        Registers {
            ir: memory.fetch(old.ar),
            pc: up12(old.pc),
            sc: 2,
            ..old
        }
    }
}

// AR ← IR(0-11), I ← IR(15). The interrupt cycle ends: PC ← PC + 1, IEN ← 0, R ← 0.
pub(super) fn t2(old: Registers) -> Registers
    ensures { (contents : Contents) → Moves 2 old contents result contents }
{
    if old.r {
        Registers {
            pc: up12(old.pc),
            ien: false,
            r: false,
            sc: 0,
            ..old
        }
    } else {
        Registers {
            ar: old.ir % 4096,
            i: old.ir / 32768 % 2 == 1,
            sc: 3,
            ..old
        }
    }
}
