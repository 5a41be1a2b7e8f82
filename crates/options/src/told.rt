//! What an option says of the options so far.
ghost use Rattle.std.specs.Prelude.{◌≡◌, [], ◌∷◌, if◌then◌else◌, Some, None};
ghost use Rattle.options.specs.Mentions.{alone, sheet_at, valued_at, fits, told};

use crate::options::Options;
use crate::value::{address, addresses, number_up_to};
use crate::word::{Flag, Valued};
use fields::number::long_decimal;

impl Options {
    /// The options after the sheet at this place.
    pub(crate) fn with_sheet(self, place: usize) -> Options
        ensures { result ≡ told (sheet_at place ∷ []) self }
    {
        Options {
            sheet: Some(place),
            ..self
        }
    }

    /// The options after an option that stands alone.
    pub(crate) fn with_flag(self, flag: Flag) -> Options
        ensures { result ≡ told (alone flag ∷ []) self }
    {
        let mut o = self;
        match flag {
            Flag::Clock => o.clock = true,
            Flag::Both => o.both = true,
            Flag::Trace => o.trace = true,
            Flag::Time => o.time = true,
            Flag::Help => o.help = true,
        }
        o
    }

    /// The options after an option and its value; none where the value is not of its form.
    pub(crate) fn with_value(self, valued: Valued, place: usize, value: &[u8]) -> Option<Options>
        ensures { result ≡ (if fits valued value.now then Some (told (valued_at valued place value.now ∷ []) self) else None) }
    {
        let mut o = self;
        match valued {
            Valued::Image => o.image = Some(place),
            Valued::Save => o.save = Some(place),
            Valued::Script => o.script = Some(place),
            Valued::Input => o.input = Some(place),
            Valued::From => o.from = Some(address(value)?),
            Valued::Cycles => o.cycles = Some(long_decimal(value)?),
            Valued::Clocks => o.clocks = Some(long_decimal(value)?),
            Valued::Wait => o.wait = u16::try_from(long_decimal(value)?).ok()?,
            Valued::Paper => o.paper = number_up_to(1_000_000, value)?,
            Valued::Examine => o.examine = Some(addresses(value)?),
        }
        Some(o)
    }
}
