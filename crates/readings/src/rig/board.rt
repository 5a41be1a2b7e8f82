//! A bench with its memory and its line.
use crate::rig::outcome::Outcome;
use line::ScriptLine;
use machine::{Call, Computer};
use memory::Memory;

/// A computer of either kind, put together with a memory and a line.
#[derive(Drop)]
pub(crate) struct Board<C: Computer, M: Memory> {
    pub computer: C,
    pub memory: M,
    pub line: ScriptLine,
}

impl<C: Computer, M: Memory> Board<C, M> {
    /// What a call returns.
    pub(crate) fn call(&mut self, call: Call) -> Outcome {
        let answer = self
            .computer
            .perform(call, &mut self.memory, &mut self.line)?;
        Ok(u32::from(answer))
    }
}
