//! A list of beats of a script line.
ghost use Rattle.std.specs.Prelude.{◌≡◌, IfOk, OnErr, OnOk};
ghost use Rattle.line.specs.Laws.{InOrder, OnPaper};
ghost use Rattle.line.specs.Script.{script_of, script_replies, script_after_all};

use crate::line::Line;
use crate::script_line::ScriptLine;
use crate::status::{Reply, Status};
use std::alloc::{AllocError, Global};

impl ScriptLine {
    // The generic `play` promises the rule alone, which does not tell cues and paper; a state in the trait would ask more of
    // every line.
    /// Shows the line the statuses in order, a beat each, and gives its replies. For want of memory nothing is shown.
    pub fn play(&mut self, statuses: &[Status], heap: Global) -> Result<Vec<Reply>, AllocError>
        ensures replies { IfOk result (λ v. v.items ≡ script_replies (script_of self.old) statuses.now) }
        ensures script { OnOk result (script_of self.new ≡ script_after_all (script_of self.old) statuses.now) }
        ensures in_order { IfOk result (λ v. InOrder (script_of self.old).cues statuses.now v.items (script_of self.new).cues) }
        ensures on_paper { IfOk result (λ v. OnPaper (script_of self.old) statuses.now v.items (script_of self.new)) }
        ensures untouched { OnErr result (self.new ≡ self.old) }
    {
        let mut replies = Vec::with_capacity(heap, statuses.len())?;
        for status in statuses {
            replies.push_reserved(self.beat(*status));
        }
        Ok(replies)
    }
}
