// Points in time, and the sequence number that a producer begins after.
ghost use Rattle.std.specs.Prelude.{◌≡◌, ℕ, ◌≤◌, ◌↔◌, ◌^◌, IsSome, IfSome, pos, negsuc, ℤ, ◌≤ℤ◌};

use std::marker::Model;

/// Milliseconds since 1970-01-01T00:00:00Z, up to the end of the year 9999.
#[derive(Clone, Copy, Debug, PartialEq, Eq)]
pub struct Moment {
    millis: u64,
}

impl Model for Moment {
    ghost Value = { ℕ };

    ghost view = { λ m. m.millis };

    ghost invariant = { λ m. m.millis ≤ 253402300799999 };

    ghost inverse = { λ n. record { millis = n } };
}

impl Moment {
    /// None beyond 9999-12-31T23:59:59.999Z.
    pub fn new(millis: u64) -> Option<Self>
        ensures fits { IsSome result ↔ (millis ≤ 253402300799999) }
        ensures value { IfSome result (λ m. m ≡ millis) }
    {
        if millis <= 253_402_300_799_999 {
            Some(Moment { millis })
        } else {
            None
        }
    }

    pub fn millis(self) -> u64
        ensures value { result ≡ self }
        ensures within { result ≤ 253402300799999 }
    {
        self.millis
    }
}

/// The sequence number after which a producer begins: -1 for none, up to 2^62.
#[derive(Clone, Copy, Debug, PartialEq, Eq)]
pub struct Base {
    number: i64,
}

impl Model for Base {
    ghost Value = { ℤ };

    ghost view = { λ b. b.number };

    ghost invariant = { λ b. (negsuc 0 ≤ℤ b.number) × (b.number ≤ℤ pos 4611686018427387904) };

    ghost inverse = { λ n. record { number = n } };
}

impl Base {
    /// None below -1 and above 2^62.
    pub fn new(number: i64) -> Option<Self>
        ensures fits { IsSome result ↔ ((negsuc 0 ≤ℤ number) × (number ≤ℤ pos 4611686018427387904)) }
        ensures value { IfSome result (λ b. b ≡ number) }
    {
        if number >= -1 && number <= 4_611_686_018_427_387_904 {
            Some(Base { number })
        } else {
            None
        }
    }

    pub fn number(self) -> i64
        ensures value { result ≡ self }
        ensures within { (negsuc 0 ≤ℤ result) × (result ≤ℤ pos 4611686018427387904) }
    {
        self.number
    }
}
