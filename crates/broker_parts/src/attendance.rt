// Whether anybody is in a subscription, for how long nobody has been, and whether it goes with the last who is.
ghost use Rattle.std.specs.Prelude.{◌≡◌};
ghost use Rattle.broker_parts.specs.Attendance.{is_over, is_unused_for, joined, later, left, looked_at, unattended};

/// Who is in a subscription, as far as it is known since its topic came into memory.
#[derive(Clone, Copy, Debug, PartialEq, Eq)]
pub struct Attendance {
    /// How many consumers are in it.
    consumers: u64,
    /// It was made by a consumer that is not durable, and no durable one has been in it since.
    is_passing: bool,
    /// For how many milliseconds nobody has been in it, at the last look where there was one.
    unused: Option<u64>,
}

impl Attendance {
    /// Nobody is in it, and it stays.
    pub fn new() -> Self
        ensures { result ≡ unattended }
    {
        Attendance {
            consumers: 0,
            is_passing: false,
            unused: None,
        }
    }

    /// A consumer comes, and finds the subscription there, or makes it.
    pub fn join(&mut self, makes: bool, is_durable: bool)
        ensures { self.new ≡ joined makes is_durable self.old }
    {
        self.consumers = self.consumers.saturating_add(1);
        self.is_passing = !is_durable && (makes || self.is_passing);
        self.unused = None;
    }

    /// A consumer goes.
    pub fn leave(&mut self)
        ensures { self.new ≡ left self.old }
    {
        self.consumers = self.consumers.saturating_sub(1);
    }

    /// The subscription is to go: nobody is in it any more, and only consumers were that are not durable.
    pub fn is_over(&self) -> bool
        ensures { result ≡ is_over self.now }
    {
        self.is_passing && self.consumers == 0
    }

    /// It is looked at so many milliseconds after it was last.
    pub fn look(&mut self, passed: u64)
        ensures { self.new ≡ looked_at passed self.old }
    {
        self.unused = if self.consumers == 0 {
            later(self.unused, passed)
        } else {
            None
        };
    }

    /// Nobody has been in it for more than so many milliseconds.
    pub fn is_unused_for(&self, millis: u64) -> bool
        ensures { result ≡ is_unused_for millis self.now }
    {
        match self.unused {
            Some(unused) => self.consumers == 0 && unused > millis,
            None => false,
        }
    }

    /// For how many milliseconds nobody has been in it, where that is known.
    pub fn unused(&self) -> Option<u64>
        ensures { result ≡ self.now.unused }
    {
        self.unused
    }

    /// Nobody had been in it for so long before its topic came into memory.
    pub fn go_on(&mut self, unused: Option<u64>)
        ensures { self.new ≡ record self.old { unused = unused } }
    {
        self.unused = unused;
    }
}

/// For how long it is unused, so many milliseconds later: the first look finds it so.
pub(crate) fn later(unused: Option<u64>, passed: u64) -> Option<u64>
    ensures { result ≡ later unused passed }
{
    match unused {
        Some(unused) => Some(unused.saturating_add(passed)),
        None => Some(0),
    }
}
