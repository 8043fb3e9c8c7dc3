//! Who carried an id.

/// What is known of an id that an event or the opening store carried.
#[derive(Clone, Copy, Debug)]
pub struct Carrier {
    /// The party that brought it as a fresh id, where one did.
    pub party: Option<u32>,
    /// Whether it is a pin: a checkpoint that a clone of the database relies on.
    pub pin: bool,
}
