//! What the words of the command line ask for.
use options::Options;

/// The options, and the words that they name by their places.
#[derive(Clone, Copy)]
pub(crate) struct Asked<'a> {
    pub words: &'a [String],
    pub options: Options,
}

/// A word of the command line.
pub(crate) fn word_at(words: &[String], place: usize) -> &str {
    match words.get(place) {
        Some(word) => word.as_str(),
        None => "",
    }
}

impl<'a> Asked<'a> {
    /// The word at a place that an option names.
    pub(crate) fn word(self, place: Option<usize>) -> Option<&'a str> {
        place.map(|place| word_at(self.words, place))
    }
}
