//! The line with nothing to say.
ghost use Rattle.std.specs.Prelude.{◌≡◌, true, false, List, length, None};
ghost use Rattle.line.specs.Laws.{StaysQuiet};
ghost use Rattle.line.specs.Owed.{quiet-proper};
ghost use Rattle.line.specs.Quiet.{quiet_reply, quiet_replies};
ghost use Rattle.line.specs.Rules.{Replied};
ghost use Rattle.line.specs.declared.status.Status.{Status};

use crate::line::Line;
use crate::status::{Reply, Status};

/// A line that has no characters, and prints whenever FGO is down.
#[derive(Clone, Copy, Debug)]
pub struct QuietLine;

/// The one reply that a quiet line has for a status.
fn quiet_reply(status: Status) -> Reply
    ensures { result ≡ quiet_reply status }
{
    Reply {
        character: None,
        printed: !status.fgo,
    }
}

impl Line for QuietLine {
    ghost replies = { λ _. quiet_replies };

    ghost proper = { λ _. quiet-proper };

    fn beat(&mut self, status: Status) -> Reply
        ensures rule { Replied quiet_replies status result quiet_replies }
        ensures each { (statuses : List Status) → length (quiet_replies statuses) ≡ length statuses }
        ensures character { status.fgi ≡ true → result.character ≡ None }
        ensures printed { status.fgo ≡ true → result.printed ≡ false }
        ensures quiet { StaysQuiet quiet_replies }
    {
        quiet_reply(status)
    }
}
