//! What the words ask for.
ghost use Rattle.std.specs.Prelude.{◌≡◌};
ghost use Rattle.options.specs.Options.{defaults};

/// What the words ask for. A word is told by its place.
// A place and no `&str`: the answer is plain data and its contract an equation, and two equal words are told apart.
#[derive(Clone, Copy, Debug, PartialEq, Eq)]
pub struct Options {
    /// The one word that is no option and no value.
    pub sheet: Option<usize>,
    /// `--image FILE`
    pub image: Option<usize>,
    /// `--save FILE`
    pub save: Option<usize>,
    /// `--script FILE`
    pub script: Option<usize>,
    /// `--input TEXT`
    pub input: Option<usize>,
    /// `--clock`
    pub clock: bool,
    /// `--both`
    pub both: bool,
    /// `--trace`
    pub trace: bool,
    /// `--time`
    pub time: bool,
    /// `--help`
    pub help: bool,
    /// `--from HEX`, at most FFF.
    pub from: Option<u16>,
    /// `--cycles N`
    pub cycles: Option<u64>,
    /// `--clocks N`
    pub clocks: Option<u64>,
    /// `--wait N`, 0 unless told.
    pub wait: u16,
    /// `--paper N`, 4096 unless told, at most 1000000.
    pub paper: u32,
    /// `--examine HEX` or `--examine HEX-HEX`: the first and the last address, each at most FFF.
    pub examine: Option<(u16, u16)>,
}

/// Why the words are not understood: which word.
#[derive(Clone, Copy, Debug, PartialEq, Eq)]
pub enum OptionFault {
    /// No option has this name.
    Unknown(usize),
    /// No value follows this option.
    NoValue(usize),
    /// This value is not of its option's form.
    BadValue(usize),
    /// This word is a second sheet.
    SecondSheet(usize),
}

/// What no words ask for.
impl Default for Options {
    ghost is_default = { λ o. o ≡ defaults };

    fn default() -> Options {
        Options {
            sheet: None,
            image: None,
            save: None,
            script: None,
            input: None,
            clock: false,
            both: false,
            trace: false,
            time: false,
            help: false,
            from: None,
            cycles: None,
            clocks: None,
            wait: 0,
            paper: 4096,
            examine: None,
        }
    }
}
