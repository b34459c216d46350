//! Numbers that a seed determines.

/// The generator SplitMix64.
#[derive(Drop)]
pub struct Random {
    state: u64,
}

impl Random {
    /// The numbers of a seed, from the first on.
    pub fn new(seed: u64) -> Random {
        Random { state: seed }
    }

    pub(crate) fn next(&mut self) -> u64 {
        self.state = self.state.wrapping_add(0x9E37_79B9_7F4A_7C15);
        let mut mixed = self.state;
        mixed = (mixed ^ (mixed >> 30)).wrapping_mul(0xBF58_476D_1CE4_E5B9);
        mixed = (mixed ^ (mixed >> 27)).wrapping_mul(0x94D0_49BB_1331_11EB);
        mixed ^ (mixed >> 31)
    }

    /// A number below a limit; 0 where that is 0.
    pub(crate) fn below(&mut self, limit: u64) -> u64 {
        match self.next().checked_rem(limit) {
            Some(rest) => rest,
            None => 0,
        }
    }
}
