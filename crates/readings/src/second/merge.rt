//! What becomes of one register when several things are asked of it at once.
ghost use Rattle.std.specs.Prelude.{◌<◌};

/// All that is asked of a register at one time.
#[derive(Clone, Copy, Debug, Default)]
pub struct Merge {
    cleared: bool,
    raised: bool,
    /// The numbers to load, joined by OR, if there is one.
    load: Option<u32>,
}

impl Merge {
    pub(crate) fn clear(&mut self) {
        self.cleared = true;
    }

    pub(crate) fn raise(&mut self) {
        self.raised = true;
    }

    pub(crate) fn load(&mut self, number: u32) {
        self.load = Some(self.load.unwrap_or(0) | number);
    }

    /// What a register of that width holds then: cleared before loaded, loaded before raised by one. What does not fit is
    /// cut off.
    pub(crate) fn of(&self, old: u32, bits: u32) -> u32 {
        if self.cleared {
            0
        } else if let Some(load) = self.load {
            load % range(bits)
        } else if self.raised {
            old.wrapping_add(1) % range(bits)
        } else {
            old
        }
    }

    /// What a flip-flop holds then that turns over when it is loaded and cleared at once.
    pub(crate) fn of_turning(&self, old: u32) -> u32 {
        if self.cleared && self.load.is_some() {
            u32::from(old == 0)
        } else {
            self.of(old, 1)
        }
    }
}

/// How many numbers that many bits can tell apart.
fn range(bits: u32) -> u32
    ensures { 0 < result }
{
    match bits {
        1 => 2,
        4 => 16,
        8 => 256,
        12 => 4096,
        _ => 65_536,
    }
}
