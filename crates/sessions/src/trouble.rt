//! What keeps a session from being tried, told in one line.
use crate::asked::word_at;
use fields::Report;
use options::OptionFault;
use sheets::SheetFault;
use std::alloc::AllocError;
use std::io;
use thiserror::Error;

/// Why nothing is tried. Words and files are told by their names.
#[derive(Debug, Drop, Error)]
pub enum Trouble<'a> {
    #[error("there is no option {0}; --help lists them")]
    Unknown(&'a str),
    #[error("{0} wants a value behind it; --help says which")]
    NoValue(&'a str),
    #[error("{0} is not a value that its option takes; --help says which it takes")]
    BadValue(&'a str),
    #[error("{0} is a second sheet, and one is tried at a time")]
    SecondSheet(&'a str),
    /// Options that do not go together, in words.
    #[error("{0}")]
    Together(&'static str),
    #[error("{0} cannot be read: is it there, and is it a file?")]
    Unreadable(&'a str),
    #[error("{0} has {1} bytes, and a memory image has 8192: two for each of 4096 words")]
    ImageSize(&'a str, usize),
    #[error("line {1} of {0} is no record: a wait up to 65535, a space and a character")]
    NoRecord(&'a str, u64),
    #[error("{0} is refused with {1}: {2}")]
    Refused(&'a str, Report, SheetFault),
    #[error("{0} is refused with {1}: more than 512 labels")]
    TooManyLabels(&'a str, Report),
    #[error("{0} cannot be written, so nothing is saved")]
    Unwritable(&'a str),
    #[error("there is not enough memory for this: ask for less paper, or for fewer clocks of both benches")]
    NoMemory(#[from(alloc)] AllocError),
    #[error("nothing can be printed")]
    Silent(#[from] io::Error),
}

impl<'a> Trouble<'a> {
    /// What is not understood in the words of the command line.
    pub(crate) fn of_words(words: &'a [String], fault: OptionFault) -> Trouble<'a> {
        match fault {
            OptionFault::Unknown(place) => Trouble::Unknown(word_at(words, place)),
            OptionFault::NoValue(place) => Trouble::NoValue(word_at(words, place)),
            OptionFault::BadValue(place) => Trouble::BadValue(word_at(words, place)),
            OptionFault::SecondSheet(place) => Trouble::SecondSheet(word_at(words, place)),
        }
    }

    /// A sheet of that name that is refused.
    pub(crate) fn of_sheet(name: &'a str, fault: SheetFault) -> Trouble<'a> {
        match fault {
            SheetFault::BookFull { .. } => Trouble::TooManyLabels(name, fault.report()),
            _ => Trouble::Refused(name, fault.report(), fault),
        }
    }
}
