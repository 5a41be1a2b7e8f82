//! The beat: after the transfers of a clock the line is shown a status, and its reply is applied.
ghost use Rattle.std.specs.Prelude.{◌≡◌};
ghost use Rattle.machine.specs.Beat.{status, applied, connected, beat, beats};
ghost use Rattle.machine.specs.Boards.{new_port};

use crate::registers::Port;
use line::{Line, Reply, Status};

impl Port {
    /// A new port: no character has come, and OUTR is free.
    pub fn new() -> Port
        ensures { result ≡ new_port }
    {
        Port {
            inpr: 0,
            outr: 0,
            fgi: false,
            fgo: true,
        }
    }

    /// What the line is shown.
    pub fn status(self) -> Status
        ensures { result ≡ status self }
    {
        Status {
            fgi: self.fgi,
            fgo: self.fgo,
            outr: self.outr,
        }
    }

    /// A reply applied: a character goes into INPR and raises FGI, "printed" raises FGO.
    pub fn apply(&mut self, reply: Reply)
        ensures { self.new ≡ applied reply self.old }
    {
        if let Some(character) = reply.character {
            self.inpr = character;
            self.fgi = true;
        }
        if reply.printed {
            self.fgo = true;
        }
    }

    /// One beat.
    pub fn beat<L: Line>(&mut self, line: &mut L)
        ensures { connected self.new (L.replies line.new) ≡ beat (connected self.old (L.replies line.old)) }
    {
        let reply = line.beat(self.status());
        self.apply(reply);
    }

    /// Some beats.
    pub fn beats<L: Line>(&mut self, line: &mut L, count: u8)
        ensures { connected self.new (L.replies line.new) ≡ beats count (connected self.old (L.replies line.old)) }
    {
        for _ in 0..count {
            self.beat(line);
        }
    }
}
