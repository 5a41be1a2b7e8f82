//! What a word is, by its bytes.
ghost use Rattle.std.specs.Prelude.{◌≡◌};
ghost use Rattle.options.specs.Names.{flag_named, valued_named, word_of};

/// An option that stands alone.
#[derive(Clone, Copy)]
pub(crate) enum Flag {
    Clock,
    Both,
    Trace,
    Time,
    Help,
}

/// An option with a value.
#[derive(Clone, Copy)]
pub(crate) enum Valued {
    Image,
    Save,
    Script,
    Input,
    From,
    Cycles,
    Clocks,
    Wait,
    Paper,
    Examine,
}

/// What a word is, where no value is due.
#[derive(Clone, Copy)]
pub(crate) enum Word {
    Sheet,
    Alone(Flag),
    Awaits(Valued),
}

/// The option that stands alone of this name.
fn flag_named(word: &str) -> Option<Flag>
    ensures { result ≡ flag_named word.now }
{
    match word {
        "--clock" => Some(Flag::Clock),
        "--both" => Some(Flag::Both),
        "--trace" => Some(Flag::Trace),
        "--time" => Some(Flag::Time),
        "--help" => Some(Flag::Help),
        _ => None,
    }
}

/// The option with a value of this name.
fn valued_named(word: &str) -> Option<Valued>
    ensures { result ≡ valued_named word.now }
{
    match word {
        "--image" => Some(Valued::Image),
        "--save" => Some(Valued::Save),
        "--script" => Some(Valued::Script),
        "--input" => Some(Valued::Input),
        "--from" => Some(Valued::From),
        "--cycles" => Some(Valued::Cycles),
        "--clocks" => Some(Valued::Clocks),
        "--wait" => Some(Valued::Wait),
        "--paper" => Some(Valued::Paper),
        "--examine" => Some(Valued::Examine),
        _ => None,
    }
}

/// What a word is: an option begins with `-`, anything else is the sheet; none where no option has this name.
pub(crate) fn word_of(word: &str) -> Option<Word>
    ensures { result ≡ word_of word.now }
{
    let [b'-', ..] = word.as_bytes() else {
        return Some(Word::Sheet);
    };
    match flag_named(word) {
        Some(flag) => Some(Word::Alone(flag)),
        None => Some(Word::Awaits(valued_named(word)?)),
    }
}
