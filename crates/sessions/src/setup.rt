//! What a session starts from: the words in memory and the characters to come.
use crate::asked::Asked;
use crate::counts::Limit;
use crate::script::read_script;
use crate::trouble::Trouble;
use line::{Cue, ScriptLine};
use memory::ImageMemory;
use sheets::LayingFault;
use sheets::assembly::assemble;
use std::alloc::AllocError;
use std::fs;

/// How many bytes an image of 4096 words has.
const IMAGE: usize = 8192;

/// The image of the memory, the characters to come, the room on the paper, where to start, and what may be made at most.
#[derive(Drop)]
pub struct Setup {
    image: Vec<u8>,
    cues: Vec<Cue>,
    paper: usize,
    pub from: u16,
    pub limit: Limit,
}

impl Setup {
    /// A memory with the words of the start.
    pub(crate) fn memory(&self) -> Result<ImageMemory, AllocError> {
        Ok(ImageMemory::new(self.image.clone()?))
    }

    /// A line with all characters to come, and nothing printed.
    pub(crate) fn line(&self, rt: &HostRuntime) -> Result<ScriptLine, AllocError> {
        let paper = vec![in rt.alloc(); 0; self.paper]?;
        Ok(ScriptLine::new(self.cues.clone()?, paper))
    }
}

/// The bytes of a file.
fn read_file<'a>(rt: &HostRuntime, name: &'a str) -> Result<Vec<u8>, Trouble<'a>> {
    fs::read(rt, name).map_err(|_| Trouble::Unreadable(name))
}

/// The image in a file, and its first address.
fn load_image<'a>(rt: &HostRuntime, name: &'a str) -> Result<(Vec<u8>, u16), Trouble<'a>> {
    let image = read_file(rt, name)?;
    if image.len() != IMAGE {
        return Err(Trouble::ImageSize(name, image.len()));
    }
    Ok((image, 0))
}

/// The image that a sheet makes of a zeroed memory, and the lowest address laid. Tells how much is laid.
fn load_sheet<'a>(rt: &HostRuntime, name: &'a str) -> Result<(Vec<u8>, u16), Trouble<'a>> {
    let text = read_file(rt, name)?;
    let mut memory = ImageMemory::new(vec![in rt.alloc(); 0; IMAGE]?);
    match assemble(rt.alloc(), 512, text.as_slice(), &mut memory)? {
        Ok((count, lowest, highest)) => {
            println!(rt; "laid {count} words from {lowest:03X} to {highest:03X}")?;
            Ok((memory.into_bytes(), lowest))
        }
        Err(LayingFault::Sheet(fault)) => Err(Trouble::of_sheet(name, fault)),
        Err(LayingFault::MemorySize) => unreachable(),
    }
}

/// The characters to come: those of a script, or those of a text, each after the same wait.
fn load_cues<'a>(rt: &HostRuntime, asked: Asked<'a>) -> Result<Vec<Cue>, Trouble<'a>> {
    let options = asked.options;
    if let Some(name) = asked.word(options.script) {
        let text = read_file(rt, name)?;
        return read_script(rt, name, text.as_slice());
    }
    let text = asked.word(options.input).unwrap_or("");
    let cues = text.bytes().map(|character| Cue {
        wait: options.wait,
        character,
    });
    Ok(cues.collect(rt.alloc())?)
}

/// Reads the files that the options name.
pub(crate) fn set_up<'a>(rt: &HostRuntime, asked: Asked<'a>) -> Result<Setup, Trouble<'a>> {
    let options = asked.options;
    let cues = load_cues(rt, asked)?;
    let (image, lowest) = match (asked.word(options.sheet), asked.word(options.image)) {
        (Some(name), None) => load_sheet(rt, name)?,
        (None, Some(name)) => load_image(rt, name)?,
        (Some(_), Some(_)) => {
            return Err(Trouble::Together(
                "a sheet or --image FILE, and not both: each fills the memory",
            ));
        }
        (None, None) => {
            return Err(Trouble::Together("name a sheet to try, or --image FILE; --help says more"));
        }
    };
    Ok(Setup {
        image,
        cues,
        paper: options.paper as usize,
        from: options.from.unwrap_or(lowest),
        limit: Limit::of(options),
    })
}
