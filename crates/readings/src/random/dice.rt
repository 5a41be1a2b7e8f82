//! Pseudo-random numbers, the same for the same seed.
ghost use Rattle.std.specs.Prelude.{◌<◌};

/// A linear congruential generator of 64 bits.
#[derive(Clone, Copy, Debug)]
pub struct Dice {
    state: u64,
}

impl Dice {
    pub(crate) fn new(seed: u32) -> Dice {
        Dice {
            state: u64::from(seed),
        }
    }

    /// A number below `sides`, of 16 bits at most.
    pub(crate) fn roll(&mut self, sides: u32) -> u16
        ensures { 0 < sides → result < sides }
    {
        self.state = self
            .state
            .wrapping_mul(6_364_136_223_846_793_005)
            .wrapping_add(1_442_695_040_888_963_407);
        if sides == 0 {
            return 0;
        }
        let number = (self.state / 0x1_0000_0000) % u64::from(sides);
        (number % 65_536) as u16
    }
}
