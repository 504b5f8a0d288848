// How often something came that is told of once a second at most.
ghost use Rattle.std.specs.Prelude.{◌≡◌, ◌+◌, ◌-◌, ◌^◌, min, None};
ghost use Rattle.worker_loops.specs.Tallies.{after_telling, may_tell, told_in};

/// How often something came, and when that was told.
#[derive(Clone, Copy, Debug, PartialEq, Eq)]
pub(crate) struct Tally {
    /// How often it came since it was told.
    count: u64,
    /// In which second it was told last.
    told: Option<u64>,
}

impl Tally {
    pub(crate) fn new() -> Tally
        ensures { result ≡ record { count = 0; told = None } }
    {
        Tally {
            count: 0,
            told: None,
        }
    }

    /// It came.
    pub(crate) fn note(&mut self)
        ensures { self.new ≡ record self.old { count = min (self.old.count + 1) (2 ^ 64 - 1) } }
    {
        self.count = self.count.saturating_add(1);
    }

    /// Whether it may be told in this second.
    fn may_tell(&self, second: u64) -> bool
        ensures { result ≡ may_tell second self.now }
    {
        let is_told = match self.told {
            Some(told) => told == second,
            None => false,
        };
        self.count > 0 && !is_told
    }

    /// How often it came since it was told, where that may be told in this second.
    pub(crate) fn take(&mut self, second: u64) -> Option<u64>
        ensures told { result ≡ told_in second self.old }
        ensures left { self.new ≡ after_telling second self.old }
    {
        if !self.may_tell(second) {
            return None;
        }
        let count = self.count;
        self.count = 0;
        self.told = Some(second);
        Some(count)
    }
}
