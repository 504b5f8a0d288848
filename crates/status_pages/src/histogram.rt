// How often something took how long.

/// How many buckets there are with a bound.
pub(crate) const BOUNDS: usize = 12;

/// The bounds, in microseconds: the n-th bucket counts what took no longer than the n-th, and longer than the one before.
pub(crate) const MICROS: [u64; BOUNDS] = [
    1_000, 2_000, 5_000, 10_000, 20_000, 50_000, 100_000, 200_000, 500_000, 1_000_000, 2_000_000,
    5_000_000,
];

/// How often something took how long.
#[derive(Clone, Copy, Debug, PartialEq, Eq)]
pub struct Histogram {
    /// One count for each bound, and not of those below it.
    pub(crate) counts: [u64; BOUNDS],
    /// What took longer.
    pub(crate) longer: u64,
    /// All together, in microseconds.
    pub(crate) sum: u64,
}

impl Histogram {
    pub fn new() -> Self {
        Histogram {
            counts: [0; BOUNDS],
            longer: 0,
            sum: 0,
        }
    }

    /// Once more, so many microseconds.
    pub fn add(&mut self, micros: u64) {
        self.sum = self.sum.saturating_add(micros);
        match bucket_of(micros) {
            Some(bucket) => {
                if let Some(count) = self.counts.get_mut(bucket) {
                    *count = count.saturating_add(1);
                }
            }
            None => self.longer = self.longer.saturating_add(1),
        }
    }

    /// How often.
    pub fn count(&self) -> u64 {
        let mut all = self.longer;
        for count in self.counts.iter() {
            all = all.saturating_add(*count);
        }
        all
    }
}

/// The bucket that counts it; none where it is longer than all bounds.
fn bucket_of(micros: u64) -> Option<usize> {
    MICROS.iter().position(|most| micros <= *most)
}
