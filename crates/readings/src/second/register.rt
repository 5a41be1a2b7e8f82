//! The registers by name.
use std::fmt;

/// A register.
#[derive(Clone, Copy, Debug, PartialEq, Eq)]
pub enum Register {
    Ar,
    Pc,
    Dr,
    Ac,
    Ir,
    Tr,
    Inpr,
    Outr,
    Sc,
    E,
    I,
    R,
    S,
    Ien,
    Fgi,
    Fgo,
}

use self::Register::*;

impl Register {
    /// Every register.
    pub(crate) const ALL: [Register; 16] = [
        Ar, Pc, Dr, Ac, Ir, Tr, Inpr, Outr, Sc, E, I, R, S, Ien, Fgi, Fgo,
    ];

    pub(crate) fn name(self) -> &'static str {
        match self {
            Ar => "AR",
            Pc => "PC",
            Dr => "DR",
            Ac => "AC",
            Ir => "IR",
            Tr => "TR",
            Inpr => "INPR",
            Outr => "OUTR",
            Sc => "SC",
            E => "E",
            I => "I",
            R => "R",
            S => "S",
            Ien => "IEN",
            Fgi => "FGI",
            Fgo => "FGO",
        }
    }

    /// Its width in bits.
    pub(crate) fn bits(self) -> u32 {
        match self {
            Dr | Ac | Ir | Tr => 16,
            Ar | Pc => 12,
            Inpr | Outr => 8,
            Sc => 4,
            E | I | R | S | Ien | Fgi | Fgo => 1,
        }
    }

    /// Whether a program can see it.
    pub(crate) fn is_visible(self) -> bool {
        !matches!(self, Ar | Dr | Ir | Tr | Sc | I)
    }
}

impl fmt::Display for Register {
    fn fmt<W: fmt::Write>(&self, f: &mut fmt::Formatter<W>) -> fmt::Result {
        f.write_str(self.name())
    }
}
