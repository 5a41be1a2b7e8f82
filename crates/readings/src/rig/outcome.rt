//! What a call returns, whoever was asked.
use crate::second;
use machine::Refusal;
use sheets::LayingFault;
use std::fmt;

/// A refusal by the number that tells it, which is what the benches, the sheet reader and the second simulator have in
/// common: each has an enum of its own.
#[derive(Clone, Copy, Debug, PartialEq, Eq)]
pub struct Refused(pub u32);

/// An answer, or a refusal.
pub type Outcome = Result<u32, Refused>;

impl From<Refusal> for Refused {
    fn from(refusal: Refusal) -> Refused {
        Refused(u32::from(refusal.number()))
    }
}

impl From<LayingFault> for Refused {
    fn from(fault: LayingFault) -> Refused {
        Refused(u32::from(fault.number()))
    }
}

impl From<second::Refusal> for Refused {
    fn from(refusal: second::Refusal) -> Refused {
        Refused(refusal.number())
    }
}

impl fmt::Display for Refused {
    fn fmt<W: fmt::Write>(&self, f: &mut fmt::Formatter<W>) -> fmt::Result {
        let number = self.0;
        write!(f, "refused {number}")
    }
}
