//! Every word of opcode 7: each combination of marks.
use crate::random::Experiment;
use crate::random::words::random_cues;
use crate::rig::{Difference, Rig};
use machine::Call;

/// LDA 200, and HLT.
const LOAD: u16 = 0x2200;

const HALT: u16 = 0x7001;

impl Experiment {
    /// Starts at 100 and makes clocks until the computer halts.
    fn run_to_halt(&mut self, rig: &mut Rig) -> Result<(), Difference> {
        self.make(rig, Call::Aim(0x100))?;
        self.make(rig, Call::Start)?;
        for _ in 0..100u32 {
            if !rig.clock.computer.registers().s {
                break;
            }
            self.make(rig, Call::Clock)?;
        }
        Ok(())
    }

    /// Carries out one word behind an LDA of a random word; whatever it does, a halt comes next. An interrupt may come first
    /// and halt too, and then it is tried again.
    fn try_word(&mut self, rig: &mut Rig, word: u16) -> Result<(), Difference> {
        let words = [
            (0x001, HALT),
            (0x100, LOAD),
            (0x101, word),
            (0x102, HALT),
            (0x103, HALT),
            (0x200, self.dice.roll(65_536)),
        ];
        for (address, word) in words {
            self.make(rig, Call::Deposit(address, word))?;
        }
        for _ in 0..3u32 {
            if self.coverage.has_seen(word) {
                break;
            }
            self.run_to_halt(rig)?;
        }
        Ok(())
    }

    /// Carries out every word of opcode 7.
    fn try_every_word(&mut self, rig: &mut Rig) -> Result<(), Difference> {
        for marks in 0..0x1000u16 {
            self.try_word(rig, 0x7000 + marks)?;
            self.try_word(rig, 0xF000 + marks)?;
        }
        Ok(())
    }
}

/// Tries every word of opcode 7, with random words in AC, and tells as much.
pub(crate) fn try_marks(rt: &HostRuntime, seed: u32) -> anyhow::Result<()> {
    println!(rt; "every word of opcode 7, seed {seed}:")?;
    let mut experiment = Experiment::new(rt.alloc(), seed)?;
    let cues = random_cues(rt.alloc(), &mut experiment.dice)?;
    let words = vec![in rt.alloc(); 0; 4096]?;
    let mut rig = Rig::new(rt.alloc(), words.as_slice(), cues.as_slice(), 4096)?;
    let tried = experiment.try_every_word(&mut rig);
    experiment.coverage.count_line(&rig.clock.line, cues.len());
    experiment.tell(rt, tried.map_err(|difference| (0, difference)))
}
