//! T3: an instruction of opcode 7 is carried out; for any other an indirect address is replaced.
ghost use Rattle.clock_bench.specs.ClockComputers.{Moves};

use crate::clock_computer::interrupt::raised;
use crate::clock_computer::marks::{input_output, register_reference};
use machine::Registers;
use memory::Memory;

// Opcode 7 with I down is register-reference, with I up input-output. Any other, with I up: AR ← M[AR].
pub(super) fn t3<M: Memory>(old: Registers, memory: &M) -> Registers
    ensures { Moves 3 old (M.contents memory.now) result (M.contents memory.now) }
{
    if old.ir / 4096 % 8 == 7 {
        if old.i {
            input_output(old)
        } else {
            register_reference(old)
        }
    } else if old.i {
        Registers {
            ar: memory.fetch(old.ar) % 4096,
            r: raised(old),
            sc: 4,
            ..old
        }
    } else {
        Registers {
            r: raised(old),
            sc: 4,
            ..old
        }
    }
}
