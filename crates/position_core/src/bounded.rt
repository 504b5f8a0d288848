// Whole numbers between two limits.
ghost use Rattle.std.specs.Prelude.{◌≡◌, ℕ, ◌≤◌, ◌↔◌, IsSome, IfSome};

use std::marker::Model;

/// A whole number from `LEAST` to `MOST`.
#[derive(Clone, Copy, Debug, PartialEq, Eq)]
pub struct Bounded<const LEAST: u32, const MOST: u32> {
    number: u32,
}

impl<const LEAST: u32, const MOST: u32> Model for Bounded<LEAST, MOST> {
    ghost Value = { ℕ };

    ghost view = { λ b. b.number };

    ghost invariant = { λ b. (LEAST ≤ b.number) × (b.number ≤ MOST) };

    ghost inverse = { λ n. record { number = n } };
}

/// A consumer's priority level: 0 is the highest.
pub type Level = Bounded<0, 2_147_483_647>;

/// A timeout or a delay, in milliseconds.
pub type Millis = Bounded<0, 2_147_483_647>;

/// How many messages may be pending at a consumer that is pushed to.
pub type WindowSize = Bounded<1, 100_000>;

/// How many further messages a consumer that pulls may be sent.
pub type Credit = Bounded<0, 2_147_483_647>;

/// How many messages one permit is for.
pub type Permits = Bounded<1, 2_147_483_647>;

/// After how many redeliveries a message dies: 0 for never.
pub type RedeliverLimit = Bounded<0, 1_000_000>;

/// How many messages are skipped.
pub type SkipLength = Bounded<0, 2_147_483_647>;

/// How many entries a ledger has.
pub type LedgerSize = Bounded<1, 50_000>;

impl<const LEAST: u32, const MOST: u32> Bounded<LEAST, MOST> {
    /// None beyond the limits.
    pub fn new(number: u32) -> Option<Self>
        ensures fits { IsSome result ↔ ((LEAST ≤ number) × (number ≤ MOST)) }
        ensures value { IfSome result (λ b. b ≡ number) }
    {
        if LEAST <= number && number <= MOST {
            Some(Bounded { number })
        } else {
            None
        }
    }

    pub fn get(self) -> u32
        ensures value { result ≡ self.entry }
        ensures within { (LEAST ≤ result) × (result ≤ MOST) }
    {
        self.number
    }
}
