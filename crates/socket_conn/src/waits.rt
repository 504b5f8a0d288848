// How often a stream had to wait.
ghost use Rattle.std.specs.Prelude.{◌≡◌, ℕ};

/// A stream that counts how often it had to wait: so nobody calls it full, or dry, that has not tried.
pub trait CountsWaits {
    // How often it took nothing, and how often it had nothing to give.
    ghost full: { Self → ℕ };

    ghost dry: { Self → ℕ };

    // How often it gave nothing, and was not asked, since it had given all that it may in a turn.
    ghost spent: { Self → ℕ };

    /// How often it took nothing.
    fn times_full(&self) -> u64
        ensures { result ≡ full self.now };

    /// How often it had nothing to give.
    fn times_dry(&self) -> u64
        ensures { result ≡ dry self.now };

    /// How often it gave nothing since it had given all that it may in a turn.
    fn times_spent(&self) -> u64
        ensures { result ≡ spent self.now };
}
