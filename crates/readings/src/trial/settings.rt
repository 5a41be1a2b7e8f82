//! How a sheet asks to be run.
use fields::number::hexadecimal;

/// Where a trial starts, how many cycles it makes at most, and what is typed with which wait.
#[derive(Clone, Copy)]
pub struct Settings<'a> {
    /// The lowest address laid, unless told.
    pub from: Option<u16>,
    pub cycles: u32,
    pub input: &'a str,
    pub wait: u16,
}

/// The first word of a comment that is meant for the trial, `// WORD REST`, and the rest.
pub(crate) fn remark(line: &str) -> Option<(&str, &str)> {
    line.strip_prefix("// ")?.split_once(' ')
}

impl<'a> Settings<'a> {
    /// These settings with one remark more; none where it is not understood.
    fn with(self, word: &str, rest: &'a str) -> Option<Settings<'a>> {
        match word {
            "from" => {
                let from = Some(hexadecimal(rest.as_bytes())?);
                Some(Settings { from, ..self })
            }
            "cycles" => {
                let cycles = rest.parse::<u32>().ok()?;
                Some(Settings { cycles, ..self })
            }
            "input" => Some(Settings {
                input: rest,
                ..self
            }),
            "wait" => {
                let wait = rest.parse::<u16>().ok()?;
                Some(Settings { wait, ..self })
            }
            "expect" => Some(self),
            _ => None,
        }
    }
}

/// The settings of a sheet, or the first of its remarks that is not understood.
pub(crate) fn read_settings(text: &str) -> Result<Settings<'_>, &str> {
    // written out: with a `Default` of a type that borrows the proof did not close
    let mut settings = Settings {
        from: None,
        cycles: 100_000,
        input: "",
        wait: 0,
    };
    for line in text.lines() {
        if let Some((word, rest)) = remark(line) {
            settings = settings.with(word, rest).ok_or(line)?;
        }
    }
    Ok(settings)
}
