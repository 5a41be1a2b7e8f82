//! How a script line is made, read and taken apart.
ghost use Rattle.std.specs.Prelude.{◌≡◌, ◌++◌};
ghost use Rattle.line.specs.Script.{script_of, new_script};

use crate::cue::Cue;
use crate::cues::Cues;
use crate::paper::Paper;
use crate::script_line::ScriptLine;

impl ScriptLine {
    /// A line at the start of its script, with nothing on its paper, which takes as many bytes as it is long.
    pub fn new(cues: Vec<Cue>, paper: Vec<u8>) -> Self
        ensures { script_of result ≡ new_script cues.items paper.items }
    {
        ScriptLine {
            cues: Cues::new(cues),
            paper: Paper::new(paper),
        }
    }

    /// What is printed so far.
    pub fn printed(&self) -> &[u8]
        ensures { result.now ≡ (script_of self.now).printed }
    {
        self.paper.printed()
    }

    /// The cues that are left.
    pub fn remaining(&self) -> &[Cue]
        ensures { result.now ≡ (script_of self.now).cues }
    {
        self.cues.remaining()
    }

    /// The paper, whole: what is printed, then the places that were not written.
    pub fn into_paper(self) -> Vec<u8>
        ensures { result.items ≡ (script_of self).printed ++ (script_of self).blank }
    {
        self.paper.into_bytes()
    }
}
