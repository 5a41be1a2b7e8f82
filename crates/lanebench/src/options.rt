//! What the words after the program's name ask for.
use fields::number::hexadecimal;
use std::fmt;

/// A sheet to try, and how.
#[derive(Clone, Copy)]
pub(crate) struct Options<'a> {
    /// None where no sheet is named.
    pub sheet: Option<&'a str>,
    pub start: u16,
    pub clocks: u16,
    pub input: &'a str,
}

/// A word that is no option, or one with a value that it does not take.
#[derive(Clone, Copy, Debug)]
pub(crate) struct Unknown<'a>(&'a str);

impl fmt::Display for Unknown<'_> {
    fn fmt<W: fmt::Write>(&self, f: &mut fmt::Formatter<W>) -> fmt::Result {
        let word = self.0;
        write!(f, "lanebench does not know '{word}'")
    }
}

impl<'a> Options<'a> {
    /// These with one option more, and the word behind it; none where it is not known.
    fn with(self, option: &str, value: &'a str) -> Option<Options<'a>> {
        match option {
            "--both" => Some(Options {
                sheet: Some(value).filter(|name| !name.is_empty()),
                ..self
            }),
            "--start" => {
                let start = hexadecimal(value.as_bytes())?;
                Some(Options { start, ..self })
            }
            "--clocks" => {
                let clocks = value.parse::<u16>().ok()?;
                Some(Options { clocks, ..self })
            }
            "--input" => Some(Options {
                input: value,
                ..self
            }),
            _ => None,
        }
    }
}

/// Reads the words in pairs: an option and its value. None where help is asked for.
pub(crate) fn read_options(words: &[String]) -> Result<Option<Options<'_>>, Unknown<'_>> {
    // written out: with a `Default` of a type that borrows the proof did not close
    let mut options = Options {
        sheet: None,
        start: 0,
        clocks: 1000,
        input: "",
    };
    for pair in words.chunks(2) {
        match pair {
            [option, value] => {
                options = options
                    .with(option.as_str(), value.as_str())
                    .ok_or(Unknown(option.as_str()))?;
            }
            [option] if option.as_str() != "--help" => return Err(Unknown(option.as_str())),
            _ => return Ok(None),
        }
    }
    Ok(Some(options))
}
