// How many bytes came from a client and went to it.
ghost use Rattle.std.specs.Prelude.{◌≡◌};
ghost use Rattle.socket_conn.specs.Traffic.{more_received, more_sent, no_traffic, since};

/// How many bytes came from a client and went to it.
#[derive(Clone, Copy, Debug, PartialEq, Eq)]
pub struct Traffic {
    pub received: u64,
    pub sent: u64,
}

impl Traffic {
    pub(crate) fn none() -> Traffic
        ensures { result ≡ no_traffic }
    {
        Traffic {
            received: 0,
            sent: 0,
        }
    }

    /// So many bytes more came.
    pub(crate) fn note_received(&mut self, count: usize)
        ensures { self.new ≡ more_received count self.old }
    {
        self.received = self.received.saturating_add(count as u64);
    }

    /// So many bytes more went.
    pub(crate) fn note_sent(&mut self, count: usize)
        ensures { self.new ≡ more_sent count self.old }
    {
        self.sent = self.sent.saturating_add(count as u64);
    }

    /// What came and went since it was this.
    pub(crate) fn since(self, old: Traffic) -> Traffic
        ensures { result ≡ since old self }
    {
        Traffic {
            received: self.received.saturating_sub(old.received),
            sent: self.sent.saturating_sub(old.sent),
        }
    }
}
