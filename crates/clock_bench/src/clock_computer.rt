//! The computer that is clocked.
mod beat;
mod examination;
mod execution;
mod fetching;
mod indirection;
mod interrupt;
mod marks;
mod panel;
mod registers;
mod tick;
mod transfers;
mod visible;

ghost use Rattle.std.specs.Prelude.{◌≡◌, ◌<◌, ◌≤◌, true, false};
ghost use Rattle.machine.specs.Boards.{reaches_t5};
ghost use Rattle.machine.specs.Words.{opcode};

use machine::Port;

// Number fields of its own, and no `Registers`: the project asks for them under the invariant.
/// A computer that takes one clock at a time. Its registers are always sound: the ghost fields say so.
#[derive(Drop)]
pub struct ClockComputer {
    ar: u16,
    pc: u16,
    dr: u16,
    ac: u16,
    ir: u16,
    tr: u16,
    sc: u8,
    e: bool,
    i: bool,
    r: bool,
    s: bool,
    ien: bool,
    port: Port,
    ghost ar_fits: { ar < 4096 },
    ghost pc_fits: { pc < 4096 },
    ghost sc_fits: { sc ≤ 6 },
    ghost at_rest: { s ≡ false → sc ≡ 0 },
    ghost at_four: { sc ≡ 4 → opcode ir < 7 },
    ghost at_five: { sc ≡ 5 → reaches_t5 (opcode ir) ≡ true },
    ghost at_six: { sc ≡ 6 → opcode ir ≡ 6 },
}
