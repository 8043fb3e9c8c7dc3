//! Which versions a value names.
ghost use Rattle.std.specs.Prelude.{◌≡◌, ℕ, Bool};

/// Which versions of its log a value names: those are kept as long as it is the latest.
pub trait VersionNames<T> {
    /// Whether a value names the version of a number.
    ghost named: { Self → T → ℕ → Bool };

    /// Whether the value names the version of this number. Takes no memory.
    fn names(&self, value: &T, number: u64) -> bool
        ensures { result ≡ named self.now value.now number };
}
