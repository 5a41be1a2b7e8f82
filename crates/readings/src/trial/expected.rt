//! What a trial must leave.
use crate::rig::{Refused, Rig};
use crate::second::Register;
use crate::trial::settings::remark;
use fields::number::hexadecimal;
use memory::Memory;
use std::fmt;

/// One thing that is expected.
#[derive(Clone, Copy, PartialEq, Eq)]
pub enum Expected<'a> {
    /// A register and its number.
    Register(Register, u32),
    /// An address and its word.
    Word(u16, u16),
    /// All that is printed.
    Printed(&'a str),
    /// The refusal of the sheet.
    Refused(Refused),
}

/// What a comment expects, or what stands there where it is not understood.
pub type Expectation<'a> = Result<Expected<'a>, &'a str>;

/// A register that a program can see, by its name.
fn visible_register(name: &str) -> Option<Register> {
    Register::ALL.iter().copied().find(|register| register.is_visible() && register.name() == name)
}

/// Reads what stands behind `// expect`; none where it is not understood.
fn read_expected(rest: &str) -> Option<Expected<'_>> {
    let (what, value) = rest.split_once(' ')?;
    match what {
        "M" => {
            let (address, word) = value.split_once(' ')?;
            Some(Expected::Word(
                hexadecimal(address.as_bytes())?,
                hexadecimal(word.as_bytes())?,
            ))
        }
        "printed" => Some(Expected::Printed(value)),
        "refused" => Some(Expected::Refused(Refused(value.parse::<u32>().ok()?))),
        name => {
            let number = hexadecimal(value.as_bytes())?;
            Some(Expected::Register(visible_register(name)?, u32::from(number)))
        }
    }
}

/// What a line of a sheet expects, if it is a comment that does.
pub(crate) fn expectation(line: &str) -> Option<Expectation<'_>> {
    match remark(line)? {
        ("expect", rest) => Some(read_expected(rest).ok_or(rest)),
        _ => None,
    }
}

impl fmt::Display for Expected<'_> {
    fn fmt<W: fmt::Write>(&self, f: &mut fmt::Formatter<W>) -> fmt::Result {
        match *self {
            Expected::Register(register, number) => {
                let digits = (register.bits() as usize).div_ceil(4);
                write!(f, "{register} {number:0digits$X}")
            }
            Expected::Word(address, word) => write!(f, "M[{address:03X}] {word:04X}"),
            Expected::Printed(text) => write!(f, "printed {text}"),
            Expected::Refused(refused) => write!(f, "{refused}"),
        }
    }
}

impl Expected<'_> {
    /// Shows what is there, and answers whether it is the same.
    pub(crate) fn show_read(&self, rt: &HostRuntime, rig: &Rig) -> anyhow::Result<bool> {
        let there = match *self {
            Expected::Register(register, _) => {
                Expected::Register(register, rig.clock_numbers().get(register))
            }
            Expected::Word(address, _) => Expected::Word(address, rig.clock.memory.fetch(address)),
            Expected::Printed(text) => {
                let read = rig.clock.line.printed();
                let shown = String::from_utf8_lossy(rt.alloc(), read)?;
                print!(rt; " printed {shown}")?;
                return Ok(read == text.as_bytes());
            }
            Expected::Refused(_) => {
                print!(rt; " laid")?;
                return Ok(false);
            }
        };
        print!(rt; " {there}")?;
        Ok(there == *self)
    }
}
