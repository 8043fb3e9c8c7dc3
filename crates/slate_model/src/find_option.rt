//! Which way a look-up rounds.

/// Which way a look-up in pairs rounds.
#[derive(Clone, Copy, Debug, Drop, PartialEq, Eq)]
pub enum FindOption {
    /// Up, to the first pair that isn't below.
    RoundUp,
    /// Down, to the last pair that isn't above.
    RoundDown,
}
