//! A session on one bench, step by step.
use crate::bench::Bench;
use crate::counts::{Counts, Limit, Stop};
use crate::ending::Ending;
use crate::progress::{CHUNK, tell_progress};
use crate::say::say_line;
use crate::setup::Setup;
use crate::trouble::Trouble;
use line::ScriptLine;
use memory::ImageMemory;

/// A bench with its memory and its line, and what was made on it.
#[derive(Drop)]
pub struct Run<B: Bench> {
    computer: B,
    memory: ImageMemory,
    line: ScriptLine,
    limit: Limit,
    pub counts: Counts,
    /// The step that was made last.
    step: B::Step,
}

impl<B: Bench> Run<B> {
    /// A new computer, aimed and started.
    pub(crate) fn start(rt: &HostRuntime, setup: &Setup) -> Result<Run<B>, Trouble<'static>> {
        let mut computer = B::fresh();
        let _ = computer.aim(setup.from);
        let _ = computer.start();
        Ok(Run {
            computer,
            memory: setup.memory()?,
            line: setup.line(rt)?,
            limit: setup.limit,
            counts: Counts::default(),
            step: B::Step::default(),
        })
    }

    /// What the session leaves.
    pub(crate) fn end(self, stop: Stop) -> Ending {
        Ending {
            visible: self.computer.seen(),
            registers: self.computer.all(),
            memory: self.memory,
            line: self.line,
            counts: self.counts,
            stop,
        }
    }

    /// One step, unless the limit is reached. Answers why the session ends, if it does.
    fn step(&mut self) -> Option<Stop> {
        if self.counts.reach(self.limit) {
            return Some(Stop::Budget);
        }
        self.computer.note(&self.memory, &mut self.step);
        if let Ok(answer) = self.computer.clock(&mut self.memory, &mut self.line) {
            self.counts = B::counted(self.counts, answer);
        }
        if self.computer.runs() {
            None
        } else {
            Some(Stop::Halted(B::began(self.step)))
        }
    }

    /// Steps until the session ends, with word of it now and then. The bound is never met: it shows that the loop ends.
    pub(crate) fn to_end(&mut self, rt: &HostRuntime) -> Result<Stop, Trouble<'static>> {
        for _ in 0..u64::MAX {
            if let Some(stop) = (0..CHUNK).find_map(|_| self.step()) {
                return Ok(stop);
            }
            tell_progress(rt, self.counts)?;
        }
        Ok(Stop::Budget)
    }

    /// The same with a row for each step.
    // A loop of its own: one with a closure for the row would be called at every step of an untraced session too.
    pub(crate) fn trace(&mut self, rt: &HostRuntime) -> Result<Stop, Trouble<'static>> {
        rt.println(B::heading())?;
        for _ in 0..u64::MAX {
            if self.counts.reach(self.limit) {
                break;
            }
            let stop = self.step();
            let row = self.computer.row(rt.alloc(), self.step)?;
            say_line(rt, row.as_slice())?;
            if let Some(stop) = stop {
                return Ok(stop);
            }
        }
        Ok(Stop::Budget)
    }
}
