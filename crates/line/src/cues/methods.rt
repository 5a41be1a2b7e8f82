//! How the cues of a script are made, read and handed over.
ghost use Rattle.std.specs.Prelude.{◌≡◌, ◌+◌, ◌<◌, vec_len};
ghost use Rattle.line.specs.Cues.{left_of, raised, due, Handing};

use crate::cue::{Cue, Wait};
use crate::cues::Cues;
use crate::status::Status;

/// Whether a cue is handed over at that count and status.
fn is_due(cue: Cue, count: Wait, status: Status) -> bool
    ensures { result ≡ due cue count status }
{
    !status.fgi && count >= cue.wait
}

impl Cues {
    /// All of these, with no beat counted.
    pub(crate) fn new(all: Vec<Cue>) -> Self
        ensures left { left_of result ≡ all.items }
        ensures count { result.count ≡ 0 }
    {
        Cues {
            all,
            next: 0,
            count: 0,
        }
    }

    /// The cues that are left.
    pub(crate) fn remaining(&self) -> &[Cue]
        ensures { result.now ≡ left_of self.now }
    {
        self.all.split_at(self.next).1
    }

    /// Goes on to the cue after the next, with the count at zero.
    fn go_on(&mut self)
        requires { self.old.next < vec_len self.old.all }
        ensures all { self.new.all ≡ self.old.all }
        ensures next { self.new.next ≡ self.old.next + 1 }
        ensures count { self.new.count ≡ 0 }
    {
        self.next += 1;
        self.count = 0;
    }

    /// Counts a beat, at most to the longest wait, and hands over the next character if its cue is due.
    pub(crate) fn beat(&mut self, status: Status) -> Option<u8>
        ensures { Handing (left_of self.old) (raised self.old.count) status result (left_of self.new) self.new.count }
    {
        self.count = self.count.saturating_add(1);
        let cue = *self.all.get(self.next)?;
        if !is_due(cue, self.count, status) {
            return None;
        }
        self.go_on();
        Some(cue.character)
    }
}
