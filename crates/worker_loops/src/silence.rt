// How long a client may be silent. It is ended only some time after a ping that it did not answer.
ghost use Rattle.std.specs.Prelude.{◌≡◌, ◌-◌, Some, None};
ghost use Rattle.worker_loops.specs.Silence.{awaited_since, silence_of};

/// How long a client may be silent, in milliseconds.
#[derive(Clone, Copy, Debug, PartialEq, Eq)]
pub struct Patience {
    /// So long after the last sign of life it is pinged.
    pub ping: u64,
    /// So long after the ping it is ended, where no sign of life followed.
    pub end: u64,
}

impl Patience {
    /// A ping after 30 seconds of silence, and the end 45 seconds after it.
    pub fn usual() -> Patience
        ensures { result ≡ record { ping = 30000; end = 45000 } }
    {
        Patience {
            ping: 30_000,
            end: 45_000,
        }
    }
}

/// What is to become of a client that is silent.
#[derive(Clone, Copy, Debug, PartialEq, Eq)]
pub(crate) enum Silence {
    /// It is not silent for long.
    Fine,
    /// It is asked for a sign of life.
    Ping,
    /// It is given up.
    End,
}

/// What is to become of a client that was heard then, and was pinged at this moment since, where it was.
pub(crate) fn silence_of(patience: Patience, now: u64, heard: u64, pinged: Option<u64>) -> Silence
    ensures { result ≡ silence_of patience now heard pinged }
{
    match pinged {
        None if now.saturating_sub(heard) >= patience.ping => Silence::Ping,
        Some(pinged) if now.saturating_sub(pinged) >= patience.end => Silence::End,
        _ => Silence::Fine,
    }
}

/// How far apart two looks at a client may be. It is looked at every 2 seconds, but not while the machine sleeps.
const MOST_APART: u64 = 12_000;

/// Since when an answer to the ping is awaited: anew where the worker stood still, for it may have come unread.
fn awaited_since(looked: u64, now: u64, pinged: Option<u64>) -> Option<u64>
    ensures { result ≡ awaited_since looked now pinged }
{
    match pinged {
        Some(_) if now.saturating_sub(looked) > MOST_APART => Some(now),
        _ => pinged,
    }
}

/// When a client was heard and pinged. Times are those of the worker's rounds.
#[derive(Clone, Copy, Debug, PartialEq, Eq)]
pub(crate) struct Hearing {
    /// When it gave a sign of life last: a whole message.
    heard: u64,
    /// Since when an answer to a ping is awaited; none where it was not pinged since it was heard.
    pinged: Option<u64>,
    /// When it was looked at last.
    looked: u64,
}

impl Hearing {
    /// It comes.
    pub(crate) fn begin(now: u64) -> Hearing
        ensures { result ≡ record { heard = now; pinged = None; looked = now } }
    {
        Hearing {
            heard: now,
            pinged: None,
            looked: now,
        }
    }

    /// It gave a sign of life.
    pub(crate) fn hear(&mut self, now: u64)
        ensures { self.new ≡ record self.old { heard = now; pinged = None } }
    {
        self.heard = now;
        self.pinged = None;
    }

    /// It is pinged.
    pub(crate) fn ping(&mut self, now: u64)
        ensures { self.new ≡ record self.old { pinged = Some now } }
    {
        self.pinged = Some(now);
    }

    /// How long it has been silent, in milliseconds.
    pub(crate) fn silent(&self, now: u64) -> u64
        ensures { result ≡ now - self.now.heard }
    {
        now.saturating_sub(self.heard)
    }

    /// Looks what is to become of it.
    pub(crate) fn look(&mut self, patience: Patience, now: u64) -> Silence
        ensures silence { result ≡ silence_of patience now self.new.heard self.new.pinged }
        ensures looked { self.new ≡ record self.old { pinged = awaited_since self.old.looked now self.old.pinged; looked = now } }
    {
        self.pinged = awaited_since(self.looked, now, self.pinged);
        self.looked = now;
        silence_of(patience, now, self.heard, self.pinged)
    }
}
