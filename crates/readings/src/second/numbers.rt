//! What the registers hold.
use crate::second::register::Register;

/// A plain number in each register, zero at first.
#[derive(Clone, Copy, Debug, Default)]
pub struct Numbers([u32; 16]);

impl Numbers {
    pub(crate) fn get(&self, register: Register) -> u32 {
        self.0[register as usize]
    }

    pub(crate) fn put(&mut self, register: Register, number: u32) {
        self.0[register as usize] = number;
    }

    /// Whether a flip-flop is up.
    pub(crate) fn up(&self, register: Register) -> bool {
        self.get(register) == 1
    }

    /// Raises a flip-flop.
    pub(crate) fn raise(&mut self, register: Register) {
        self.put(register, 1);
    }

    /// Lowers a flip-flop.
    pub(crate) fn lower(&mut self, register: Register) {
        self.put(register, 0);
    }
}
