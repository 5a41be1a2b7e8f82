//! What is not the same on a bench and on the second simulator.
use crate::rig::outcome::Outcome;
use crate::second::Register;
use std::fmt;

/// Which bench.
#[derive(Clone, Copy, Debug)]
pub enum Bench {
    Clock,
    Instruction,
}

/// The first thing that differs between a bench and the second simulator.
#[derive(Clone, Copy, Debug)]
pub struct Difference {
    pub bench: Bench,
    pub what: What,
}

/// What differs: what the bench has, then what the second simulator has.
#[derive(Clone, Copy, Debug)]
pub enum What {
    Outcome(Outcome, Outcome),
    Register(Register, u32, u32),
    Word(u16, u32, u32),
    Printed,
}

/// What a call returned, in words.
#[derive(Clone, Copy)]
pub struct Shown(pub Outcome);

impl fmt::Display for Shown {
    fn fmt<W: fmt::Write>(&self, f: &mut fmt::Formatter<W>) -> fmt::Result {
        match self.0 {
            Ok(answer) => write!(f, "answered {answer}"),
            Err(refused) => write!(f, "{refused}"),
        }
    }
}

impl fmt::Display for Bench {
    fn fmt<W: fmt::Write>(&self, f: &mut fmt::Formatter<W>) -> fmt::Result {
        match self {
            Bench::Clock => f.write_str("clock bench"),
            Bench::Instruction => f.write_str("instruction bench"),
        }
    }
}

impl fmt::Display for Difference {
    fn fmt<W: fmt::Write>(&self, f: &mut fmt::Formatter<W>) -> fmt::Result {
        let Difference { bench, what } = *self;
        match what {
            What::Outcome(ours, theirs) => {
                let ours = Shown(ours);
                let theirs = Shown(theirs);
                write!(f, "the {bench} {ours}, the second simulator {theirs}")
            }
            What::Register(register, ours, theirs) => {
                write!(
                    f,
                    "{register} is {ours:X} on the {bench}, {theirs:X} on the second simulator"
                )
            }
            What::Word(address, ours, theirs) => {
                write!(
                    f,
                    "the word at {address:03X} is {ours:04X} on the {bench}, {theirs:04X} on the second simulator"
                )
            }
            What::Printed => {
                write!(
                    f,
                    "the {bench} and the second simulator printed other characters"
                )
            }
        }
    }
}
