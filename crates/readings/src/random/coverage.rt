//! How much random words have tried.
use crate::rig::Outcome;
use line::ScriptLine;
use machine::Call;
use std::alloc::{AllocError, Global};
use std::fmt;

/// What was tried so far.
#[derive(Drop)]
pub struct Coverage {
    /// The calls on the present memory.
    pub calls: u32,
    pub cycles: u32,
    pub clocks: u32,
    pub interrupts: u32,
    pub by_opcode: [u32; 8],
    pub panel_calls: u32,
    pub refusals: u32,
    pub handed_over: usize,
    pub printed: usize,
    /// For each of the 12 marks and I, whether that word was carried out.
    seen: Vec<bool>,
}

/// The place of a word of opcode 7: its marks, and those of the other group behind.
fn marks_of(word: u16) -> usize {
    usize::from(word % 0x1000 + word / 0x8000 * 0x1000)
}

impl Coverage {
    pub(crate) fn new(heap: Global) -> Result<Coverage, AllocError> {
        Ok(Coverage {
            calls: 0,
            cycles: 0,
            clocks: 0,
            interrupts: 0,
            by_opcode: [0; 8],
            panel_calls: 0,
            refusals: 0,
            handed_over: 0,
            printed: 0,
            seen: vec![in heap; false; 8192]?,
        })
    }

    /// One call more, granted or refused.
    pub(crate) fn count_call(&mut self, call: Call, outcome: Outcome) {
        self.calls = self.calls.saturating_add(1);
        match (call, outcome) {
            (_, Err(_)) => self.refusals = self.refusals.saturating_add(1),
            (Call::Clock, Ok(_)) => self.clocks = self.clocks.saturating_add(1),
            (_, Ok(_)) => self.panel_calls = self.panel_calls.saturating_add(1),
        }
    }

    /// One cycle more, if the call was a clock that ended one; `ir` is its instruction.
    pub(crate) fn count_cycle(&mut self, call: Call, outcome: Outcome, ir: u16) -> bool {
        let (Call::Clock, Ok(clocks @ 1..)) = (call, outcome) else {
            return false;
        };
        self.cycles = self.cycles.saturating_add(1);
        if clocks == 3 {
            self.interrupts = self.interrupts.saturating_add(1);
            return true;
        }
        let opcode = usize::from(ir / 0x1000 % 8);
        self.by_opcode[opcode] = self.by_opcode[opcode].saturating_add(1);
        if opcode == 7 {
            if let Some(place) = self.seen.get_mut(marks_of(ir)) {
                *place = true;
            }
        }
        true
    }

    /// Whether a word of opcode 7 was carried out.
    pub(crate) fn has_seen(&self, word: u16) -> bool {
        self.seen.get(marks_of(word)) == Some(&true)
    }

    /// Calls are counted from here for the next memory.
    pub(crate) fn begin_memory(&mut self) {
        self.calls = 0;
    }

    /// What a line handed over of so many characters, and what it printed.
    pub(crate) fn count_line(&mut self, line: &ScriptLine, cues: usize) {
        let left = line.remaining().len();
        self.handed_over = self.handed_over.saturating_add(cues.saturating_sub(left));
        self.printed = self.printed.saturating_add(line.printed().len());
    }

    /// How many words of opcode 7 were carried out, each counted once.
    pub(crate) fn combinations(&self) -> usize {
        self.seen.iter().filter(|seen| **seen).count()
    }
}

impl fmt::Display for Coverage {
    fn fmt<W: fmt::Write>(&self, f: &mut fmt::Formatter<W>) -> fmt::Result {
        writeln!(
            f,
            "  {} cycles of {} clocks, {} of them interrupts",
            self.cycles, self.clocks, self.interrupts
        )?;
        f.write_str("  cycles by opcode:")?;
        for count in self.by_opcode.iter() {
            write!(f, " {count}")?;
        }
        writeln!(f)?;
        let combinations = self.combinations();
        writeln!(
            f,
            "  mark combinations: {combinations} of 8192; panel calls: {}; refusals: {}",
            self.panel_calls, self.refusals
        )?;
        write!(
            f,
            "  characters handed over: {}; printed: {}",
            self.handed_over, self.printed
        )
    }
}
