//! Scripts: a record on each line, a wait and a character.
use crate::trouble::Trouble;
use fields::Lines;
use fields::number::{decimal, hexadecimal};
use line::Cue;

/// The character that some bytes tell: itself, `\\`, `\n`, or `\x` and two hexadecimal digits.
fn character(bytes: &[u8]) -> Option<u8> {
    match bytes {
        [b'\\', b'\\'] => Some(b'\\'),
        [b'\\', b'n'] => Some(b'\n'),
        [b'\\', b'x', high, low] => {
            let code = hexadecimal(&[*high, *low])?;
            Some((code % 256) as u8)
        }
        [b'\\'] => None,
        [byte] => Some(*byte),
        _ => None,
    }
}

/// One record.
fn record(line: &[u8]) -> Option<Cue> {
    let space = line.iter().position(|byte| *byte == b' ')?;
    let wait = u16::try_from(decimal(&line[..space])?).ok()?;
    let character = character(&line[space + 1..])?;
    Some(Cue { wait, character })
}

/// The records of the script of that name.
pub(crate) fn read_script<'a>(
    rt: &HostRuntime,
    name: &'a str,
    text: &[u8],
) -> Result<Vec<Cue>, Trouble<'a>> {
    let mut cues = Vec::new(rt.alloc());
    for (line, number) in Lines::new(text).zip(1..u64::MAX) {
        let cue = record(line).ok_or(Trouble::NoRecord(name, number))?;
        cues.push(cue)?;
    }
    Ok(cues)
}
