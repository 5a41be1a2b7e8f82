//! The textbook's table of register transfers: what is moved when.
use crate::second::merge::Merge;
use crate::second::numbers::Numbers;
use crate::second::register::Register;
use crate::second::register::Register::*;

/// When a row of the table acts. T is told by its number, D too.
#[derive(Clone, Copy)]
pub enum When {
    /// At every clock.
    Always,
    /// R' T.
    Fetch(u32),
    /// R T.
    Interrupt(u32),
    /// D T.
    Opcode(u32, u32),
    /// D7' I T3.
    Indirect,
    /// r, which is D7 I' T3.
    Registers,
    /// r and a bit of IR.
    RegisterMark(u32),
    /// p, which is D7 I T3.
    Ports,
    /// p and a bit of IR.
    PortMark(u32),
    /// T0' T1' T2' IEN (FGI + FGO).
    Request,
}

/// A further condition of a row.
#[derive(Clone, Copy)]
pub enum If {
    Any,
    DrZero,
    AcPositive,
    AcNegative,
    AcZero,
    EDown,
    FgiUp,
    FgoUp,
}

/// A number that is moved.
#[derive(Clone, Copy)]
pub enum Source {
    One,
    Of(Register),
    /// The word at AR.
    Memory,
    /// The low 12 bits of IR, and its bit 15.
    IrAddress,
    IrTop,
    /// What the adder and logic circuit makes of AC, DR, E and INPR.
    And,
    Sum,
    Carry,
    Complement,
    Right,
    Left,
    AcLow,
    AcHigh,
    EComplement,
    WithInput,
    /// The low 8 bits of AC.
    AcByte,
}

/// What a row does.
#[derive(Clone, Copy)]
pub enum Does {
    Load(Register, Source),
    Clear(Register),
    Raise(Register),
    /// M[AR] takes a register.
    Write(Register),
}

use self::Does::*;
use self::If::*;
use self::Source::*;
use self::When::*;

/// The table, row by row.
static TABLE: [(When, If, Does); 63] = [
    // the sequence counter goes on unless a row clears it
    (Always, Any, Raise(Sc)),
    // fetch, decode, indirect
    (Fetch(0), Any, Load(Ar, Of(Pc))),
    (Fetch(1), Any, Load(Ir, Memory)),
    (Fetch(1), Any, Raise(Pc)),
    (Fetch(2), Any, Load(Ar, IrAddress)),
    (Fetch(2), Any, Load(I, IrTop)),
    (Indirect, Any, Load(Ar, Memory)),
    // interrupt
    (Request, Any, Load(R, One)),
    (Interrupt(0), Any, Clear(Ar)),
    (Interrupt(0), Any, Load(Tr, Of(Pc))),
    (Interrupt(1), Any, Write(Tr)),
    (Interrupt(1), Any, Clear(Pc)),
    (Interrupt(2), Any, Raise(Pc)),
    (Interrupt(2), Any, Clear(Ien)),
    (Interrupt(2), Any, Clear(R)),
    (Interrupt(2), Any, Clear(Sc)),
    // AND, ADD, LDA
    (Opcode(0, 4), Any, Load(Dr, Memory)),
    (Opcode(0, 5), Any, Load(Ac, And)),
    (Opcode(0, 5), Any, Clear(Sc)),
    (Opcode(1, 4), Any, Load(Dr, Memory)),
    (Opcode(1, 5), Any, Load(Ac, Sum)),
    (Opcode(1, 5), Any, Load(E, Carry)),
    (Opcode(1, 5), Any, Clear(Sc)),
    (Opcode(2, 4), Any, Load(Dr, Memory)),
    (Opcode(2, 5), Any, Load(Ac, Of(Dr))),
    (Opcode(2, 5), Any, Clear(Sc)),
    // STA, BUN, BSA, ISZ
    (Opcode(3, 4), Any, Write(Ac)),
    (Opcode(3, 4), Any, Clear(Sc)),
    (Opcode(4, 4), Any, Load(Pc, Of(Ar))),
    (Opcode(4, 4), Any, Clear(Sc)),
    (Opcode(5, 4), Any, Write(Pc)),
    (Opcode(5, 4), Any, Raise(Ar)),
    (Opcode(5, 5), Any, Load(Pc, Of(Ar))),
    (Opcode(5, 5), Any, Clear(Sc)),
    (Opcode(6, 4), Any, Load(Dr, Memory)),
    (Opcode(6, 5), Any, Raise(Dr)),
    (Opcode(6, 6), Any, Write(Dr)),
    (Opcode(6, 6), DrZero, Raise(Pc)),
    (Opcode(6, 6), Any, Clear(Sc)),
    // CLA, CLE, CMA, CME, CIR, CIL, INC, SPA, SNA, SZA, SZE, HLT
    (Registers, Any, Clear(Sc)),
    (RegisterMark(11), Any, Clear(Ac)),
    (RegisterMark(10), Any, Clear(E)),
    (RegisterMark(9), Any, Load(Ac, Complement)),
    (RegisterMark(8), Any, Load(E, EComplement)),
    (RegisterMark(7), Any, Load(Ac, Right)),
    (RegisterMark(7), Any, Load(E, AcLow)),
    (RegisterMark(6), Any, Load(Ac, Left)),
    (RegisterMark(6), Any, Load(E, AcHigh)),
    (RegisterMark(5), Any, Raise(Ac)),
    (RegisterMark(4), AcPositive, Raise(Pc)),
    (RegisterMark(3), AcNegative, Raise(Pc)),
    (RegisterMark(2), AcZero, Raise(Pc)),
    (RegisterMark(1), EDown, Raise(Pc)),
    (RegisterMark(0), Any, Clear(S)),
    // INP, OUT, SKI, SKO, ION, IOF
    (Ports, Any, Clear(Sc)),
    (PortMark(11), Any, Load(Ac, WithInput)),
    (PortMark(11), Any, Clear(Fgi)),
    (PortMark(10), Any, Load(Outr, AcByte)),
    (PortMark(10), Any, Clear(Fgo)),
    (PortMark(9), FgiUp, Raise(Pc)),
    (PortMark(8), FgoUp, Raise(Pc)),
    (PortMark(7), Any, Load(Ien, One)),
    (PortMark(6), Any, Clear(Ien)),
];

/// Bit `i` of a number.
fn bit(number: u32, i: u32) -> u32 {
    if i < 16 { (number >> i) % 2 } else { 0 }
}

/// Whether a row of that kind acts on these registers.
fn acts(when: When, n: &Numbers) -> bool {
    let t = n.get(Sc);
    let d = n.get(Ir) / 4096 % 8;
    let marked = t == 3 && d == 7;
    match when {
        Always => true,
        Fetch(time) => !n.up(R) && t == time,
        Interrupt(time) => n.up(R) && t == time,
        Opcode(code, time) => d == code && t == time,
        Indirect => t == 3 && d != 7 && n.up(I),
        Registers => marked && !n.up(I),
        RegisterMark(i) => marked && !n.up(I) && bit(n.get(Ir), i) == 1,
        Ports => marked && n.up(I),
        PortMark(i) => marked && n.up(I) && bit(n.get(Ir), i) == 1,
        Request => t > 2 && n.up(Ien) && (n.up(Fgi) || n.up(Fgo)),
    }
}

/// Whether its further condition holds.
fn holds(condition: If, n: &Numbers) -> bool {
    match condition {
        Any => true,
        DrZero => n.get(Dr) == 0,
        AcPositive => n.get(Ac) < 0x8000,
        AcNegative => n.get(Ac) >= 0x8000,
        AcZero => n.get(Ac) == 0,
        EDown => !n.up(E),
        FgiUp => n.up(Fgi),
        FgoUp => n.up(Fgo),
    }
}

/// The number that is moved; `word` is the word at AR.
fn number(source: Source, n: &Numbers, word: u32) -> u32 {
    let ac = n.get(Ac);
    match source {
        One => 1,
        Of(register) => n.get(register),
        Memory => word,
        IrAddress => n.get(Ir) % 4096,
        IrTop => n.get(Ir) / 32_768 % 2,
        And => ac & n.get(Dr),
        Sum => ac.wrapping_add(n.get(Dr)) % 65_536,
        Carry => ac.wrapping_add(n.get(Dr)) / 65_536 % 2,
        Complement => 65_535u32.wrapping_sub(ac),
        Right => n.get(E).wrapping_mul(32_768).wrapping_add(ac / 2),
        Left => ac.wrapping_mul(2).wrapping_add(n.get(E)) % 65_536,
        AcLow => ac % 2,
        AcHigh => ac / 32_768,
        EComplement => 1u32.wrapping_sub(n.get(E)),
        WithInput => (ac / 256).wrapping_mul(256).wrapping_add(n.get(Inpr)),
        AcByte => ac % 256,
    }
}

/// What a register holds after the clock, by all rows that act. IEN turns over when it is raised and lowered at once.
pub(crate) fn next(register: Register, before: &Numbers, word: u32) -> u32 {
    let mut merge = Merge::default();
    for (when, condition, does) in TABLE.iter() {
        if acts(*when, before) && holds(*condition, before) {
            match does {
                Load(to, source) if *to == register => merge.load(number(*source, before, word)),
                Clear(to) if *to == register => merge.clear(),
                Raise(to) if *to == register => merge.raise(),
                _ => {}
            }
        }
    }
    if register == Ien {
        merge.of_turning(before.get(Ien))
    } else {
        merge.of(before.get(register), register.bits())
    }
}

/// The number that the memory takes at AR, if any.
pub(crate) fn written(before: &Numbers) -> Option<u32> {
    TABLE.iter().find_map(|(when, _, does)| match does {
        Write(register) if acts(*when, before) => Some(before.get(*register)),
        _ => None,
    })
}
