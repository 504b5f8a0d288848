// Numbers that look random, and are the same each time.
#[derive(Drop)]
pub(super) struct Dice {
    state: u64,
}

impl Dice {
    pub(super) fn new(number: u64) -> Self {
        Dice {
            state: number
                .wrapping_mul(2_654_435_761)
                .wrapping_add(88_172_645_463_325_252),
        }
    }

    /// A number below the number of sides, or 0 where there is none.
    pub(super) fn roll(&mut self, sides: u64) -> u64 {
        let next = self.state.wrapping_mul(6_364_136_223_846_793_005);
        self.state = next.wrapping_add(1_442_695_040_888_963_407);
        (self.state >> 33).checked_rem(sides).unwrap_or(0)
    }
}
