// Which messages a topic keeps, though every subscription has done with them.
ghost use Rattle.std.specs.Prelude.{◌≡◌, ℕ, ◌≤◌, ◌↔◌, IsSome, IfSome};

use position_core::Bounded;
use std::marker::Model;

/// How many messages are kept: a log has no more.
pub type KeptMessages = Bounded<0, 1_048_576>;

/// How long messages are kept, in milliseconds: up to the last moment.
#[derive(Clone, Copy, Debug, PartialEq, Eq)]
pub struct KeptAge {
    millis: u64,
}

impl Model for KeptAge {
    ghost Value = { ℕ };

    ghost view = { λ a. a.millis };

    ghost invariant = { λ a. a.millis ≤ 253402300799999 };

    ghost inverse = { λ n. record { millis = n } };
}

impl KeptAge {
    /// None beyond 253,402,300,799,999: no two moments are further apart.
    pub fn new(millis: u64) -> Option<Self>
        ensures fits { IsSome result ↔ (millis ≤ 253402300799999) }
        ensures value { IfSome result (λ a. a ≡ millis) }
    {
        if millis <= 253_402_300_799_999 {
            Some(KeptAge { millis })
        } else {
            None
        }
    }

    pub fn millis(self) -> u64
        ensures value { result ≡ self }
        ensures within { result ≤ 253402300799999 }
    {
        self.millis
    }
}

/// Which of the messages that every subscription has done with are kept.
#[derive(Clone, Copy, Debug, PartialEq, Eq)]
pub enum Retention {
    /// All of them.
    All,
    /// So many of the last messages of the log.
    Messages(KeptMessages),
    /// Those that are not older.
    Age(KeptAge),
}
