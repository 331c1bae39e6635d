// Numbers that follow from a seed.

// A linear congruential generator of 64 bits with Knuth's MMIX numbers, of which the high half is
// given.
#[derive(Drop)]
pub(crate) struct Numbers {
    state: u64,
}

const FACTOR: u64 = 6_364_136_223_846_793_005;

const STEP: u64 = 1_442_695_040_888_963_407;

impl Numbers {
    pub(crate) fn from(seed: u64) -> Numbers {
        Numbers { state: seed }
    }

    // A number below this one, or 0.
    pub(crate) fn below(&mut self, end: u64) -> u64 {
        self.state = self.state.wrapping_mul(FACTOR).wrapping_add(STEP);
        let high = self.state >> 32;
        if end == 0 {
            return 0;
        }
        high % end
    }
}
