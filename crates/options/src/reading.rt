//! Reading the words, one after the other.
ghost use Rattle.std.specs.Prelude.{◌≡◌, length, Ok, MatchResult};
ghost use Rattle.options.specs.declared.options.Options.{Options};
ghost use Rattle.options.specs.Grammar.{Asked, Refused};
ghost use Rattle.options.specs.Bounds.{Within};
ghost use Rattle.options.specs.Reading.{by_word, by_value, next, finished, bytes_of, options_of};

use crate::options::{OptionFault, Options};
use crate::word::{Valued, Word, word_of};

/// The options so far, and the option that waits for its value, with its place.
#[derive(Clone, Copy)]
pub(crate) struct Reading {
    pub options: Options,
    pub waiting: Option<(Valued, usize)>,
}

impl Options {
    /// One word more, where no value is due.
    fn read_word(self, place: usize, word: &str) -> Result<Reading, OptionFault>
        ensures { result ≡ by_word self place word.now }
    {
        let (options, waiting) = match word_of(word).ok_or(OptionFault::Unknown(place))? {
            Word::Sheet if self.sheet.is_some() => return Err(OptionFault::SecondSheet(place)),
            Word::Sheet => (self.with_sheet(place), None),
            Word::Alone(flag) => (self.with_flag(flag), None),
            Word::Awaits(valued) => (self, Some((valued, place))),
        };
        Ok(Reading { options, waiting })
    }

    /// The value of an option.
    fn read_value(self, valued: Valued, place: usize, value: &[u8]) -> Result<Reading, OptionFault>
        ensures { result ≡ by_value self valued place value.now }
    {
        let options = self
            .with_value(valued, place, value)
            .ok_or(OptionFault::BadValue(place))?;
        Ok(Reading {
            options,
            waiting: None,
        })
    }
}

impl Reading {
    /// One word more.
    fn next(self, place: usize, word: &str) -> Result<Reading, OptionFault>
        ensures { result ≡ next self.waiting self.options place word.now }
    {
        match self.waiting {
            None => self.options.read_word(place, word),
            Some((valued, _)) => self.options.read_value(valued, place, word.as_bytes()),
        }
    }

    /// The options, if no value is due any more.
    fn finish(self) -> Result<Options, OptionFault>
        ensures { result ≡ finished self.waiting self.options }
    {
        match self.waiting {
            None => Ok(self.options),
            Some((_, place)) => Err(OptionFault::NoValue(place)),
        }
    }
}

/// All words, from the left.
fn read_all(words: &[String]) -> Result<Options, OptionFault>
    ensures { result ≡ options_of (bytes_of words.now) }
{
    let mut reading = Reading {
        options: Options::default(),
        waiting: None,
    };
    for (place, word) in words.iter().enumerate() {
        reading = reading.next(place, word.as_str())?;
    }
    reading.finish()
}

/// What the words behind a program's name ask for.
pub fn read_options(words: &[String]) -> Result<Options, OptionFault>
    ensures answer { result ≡ options_of (bytes_of words.now) }
    ensures form { MatchResult result (Asked (bytes_of words.now)) (Refused (bytes_of words.now)) }
    ensures each { (o : Options) → Asked (bytes_of words.now) o → result ≡ Ok o }
    ensures within { Within (length words.now) result }
{
    read_all(words)
}
