//! One beat of a script line.
ghost use Rattle.std.specs.Prelude.{◌≡◌, true, false, List, length, None};
ghost use Rattle.line.specs.Laws.{HandsOverInOrder, PrintsOnPaper};
ghost use Rattle.line.specs.Owed.{script-proper};
ghost use Rattle.line.specs.Rules.{Replied};
ghost use Rattle.line.specs.Script.{script_of, script_after, script_replies};
ghost use Rattle.line.specs.declared.status.Status.{Status};

use crate::line::Line;
use crate::script_line::ScriptLine;
use crate::status::{Reply, Status};

impl Line for ScriptLine {
    ghost replies = { λ line. script_replies (script_of line) };

    ghost proper = { λ line. script-proper (script_of line) };

    fn beat(&mut self, status: Status) -> Reply
        ensures rule { Replied (script_replies (script_of self.old)) status result (script_replies (script_of self.new)) }
        ensures each { (statuses : List Status) → length (script_replies (script_of self.old) statuses) ≡ length statuses }
        ensures character { status.fgi ≡ true → result.character ≡ None }
        ensures printed { status.fgo ≡ true → result.printed ≡ false }
        ensures script { script_of self.new ≡ script_after (script_of self.old) status }
        ensures in_order { HandsOverInOrder (script_of self.old) }
        ensures on_paper { PrintsOnPaper (script_of self.old) }
    {
        let character = self.cues.beat(status);
        let printed = self.paper.print(status);
        Reply { character, printed }
    }
}
