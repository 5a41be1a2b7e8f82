//! The computer that makes whole cycles.
ghost use Rattle.std.specs.Prelude.{◌<◌};

use machine::Port;

mod beats;
mod cycle;
mod execution;
mod interrupt;
mod panel;
mod port_marks;
mod references;
mod register_marks;
mod registers;
mod run;

// Fields of its own, and no `Visible`: each instruction says `self.ac` for `self.visible.ac`.
/// The registers that a program can see, and no others.
#[derive(Clone, Copy, Debug)]
pub struct CycleComputer {
    ac: u16,
    e: bool,
    pc: u16,
    ien: bool,
    r: bool,
    s: bool,
    port: Port,
    ghost address: { pc < 4096 },
}
