//! How a session ends: what it leaves, told in the same order every time.
use crate::counts::{Counts, Stop};
use crate::say::{say, say_line};
use crate::trouble::Trouble;
use line::ScriptLine;
use machine::{Registers, Visible};
use memory::{ImageMemory, Memory};
use rows::{escaped, hidden_lines, visible_lines, word_row};

/// What a session leaves. All registers are there if it was made clock by clock.
#[derive(Drop)]
pub struct Ending {
    pub visible: Visible,
    pub registers: Option<Registers>,
    pub memory: ImageMemory,
    pub line: ScriptLine,
    pub counts: Counts,
    pub stop: Stop,
}

impl Ending {
    /// Tells the words from one address to another.
    pub(crate) fn tell_words(
        &self,
        rt: &HostRuntime,
        first: u16,
        last: u16,
    ) -> Result<(), Trouble<'static>> {
        for address in first..=last {
            let text = word_row(rt.alloc(), address, self.memory.fetch(address))?;
            say_line(rt, text.as_slice())?;
        }
        Ok(())
    }

    /// Tells the registers, what was printed, how much was made and why it ended.
    pub(crate) fn tell(&self, rt: &HostRuntime) -> Result<(), Trouble<'static>> {
        say(rt, visible_lines(rt.alloc(), self.visible)?.as_slice())?;
        if let Some(registers) = self.registers {
            say(rt, hidden_lines(rt.alloc(), registers)?.as_slice())?;
        }
        print!(rt; "printed ")?;
        say_line(rt, escaped(rt.alloc(), self.line.printed())?.as_slice())?;
        rt.println(self.counts)?;
        let stop = self.stop;
        println!(rt; "stopped {stop}")?;
        Ok(())
    }
}
