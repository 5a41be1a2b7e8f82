//! The trait that every line has.
ghost use Rattle.std.specs.Prelude.{◌≡◌, true, false, List, length, None};
ghost use Rattle.line.specs.Rules.{Rule, Replied, Proper};
ghost use Rattle.line.specs.declared.status.Status.{Status};

use crate::status::{Reply, Status};

/// A character line.
pub trait Line {
    /// The reply rule: for each list of statuses, the replies that the line would give from now on.
    ghost replies: { Self → Rule };

    /// Every line's rule is proper.
    ghost proper: { (x : Self) → Proper (replies x) };

    /// Takes one status, gives the rule's first reply, and leaves the rule for the rest.
    fn beat(&mut self, status: Status) -> Reply
        ensures rule { Replied (replies self.old) status result (replies self.new) }
        ensures each { (statuses : List Status) → length (replies self.old statuses) ≡ length statuses }
        ensures character { status.fgi ≡ true → result.character ≡ None }
        ensures printed { status.fgo ≡ true → result.printed ≡ false };
}
