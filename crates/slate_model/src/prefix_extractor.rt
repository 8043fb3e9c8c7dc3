//! What finds the prefix of a key that its segment has.
ghost use Rattle.std.specs.Prelude.{◌≡◌};
ghost use Rattle.slate_model.specs.Validation.{Extractor};

/// What finds the segments of keys. It is handed in by the caller, and is taken at its word.
pub trait PrefixExtractor {
    ghost means: { Self → Extractor };

    /// Its name, which a database keeps.
    fn name(&self) -> &str
        ensures { result.now ≡ (means self.now).name };

    /// How many bytes of this prefix are a segment's whole prefix; `None` where it begins none.
    fn prefix_len(&self, prefix: &[u8]) -> Option<usize>
        ensures { result ≡ (means self.now).prefix_len prefix.now };
}
