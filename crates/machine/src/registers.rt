//! The registers of the computer. A flip-flop is up when it holds 1.
ghost use Rattle.std.specs.Prelude.{◌≡◌};
ghost use Rattle.machine.specs.Boards.{visible_of};

/// The registers between the processor and its line.
#[derive(Clone, Copy, Debug, PartialEq, Eq)]
pub struct Port {
    /// The input register: the last character that came.
    pub inpr: u8,
    /// The output register: the character to print.
    pub outr: u8,
    /// The input flag: up while INPR holds a character that was not taken.
    pub fgi: bool,
    /// The output flag: up while OUTR is free for the next character.
    pub fgo: bool,
}

/// Every register of the computer that is clocked. AR and PC have 12 bits.
#[derive(Clone, Copy, Debug, PartialEq, Eq)]
pub struct Registers {
    /// The address register, to which the memory always listens.
    pub ar: u16,
    /// The program counter.
    pub pc: u16,
    /// The data register.
    pub dr: u16,
    /// The accumulator.
    pub ac: u16,
    /// The instruction register.
    pub ir: u16,
    /// The temporary register.
    pub tr: u16,
    /// The sequence counter: Ti is the clock made while it is i.
    pub sc: u8,
    /// The carry of the accumulator.
    pub e: bool,
    /// The indirect bit of the instruction.
    pub i: bool,
    /// Up when the next cycle is an interrupt cycle.
    pub r: bool,
    /// Up while the computer runs.
    pub s: bool,
    /// Up while interrupts are let in.
    pub ien: bool,
    pub port: Port,
}

/// The registers that a program can see. The computer that makes whole cycles has no others.
#[derive(Clone, Copy, Debug, PartialEq, Eq)]
pub struct Visible {
    pub ac: u16,
    pub e: bool,
    pub pc: u16,
    pub ien: bool,
    pub r: bool,
    pub s: bool,
    pub port: Port,
}

impl From<Registers> for Visible {
    ghost from_gives = { λ registers r. r ≡ visible_of registers };

    fn from(registers: Registers) -> Visible {
        Visible {
            ac: registers.ac,
            e: registers.e,
            pc: registers.pc,
            ien: registers.ien,
            r: registers.r,
            s: registers.s,
            port: registers.port,
        }
    }
}
