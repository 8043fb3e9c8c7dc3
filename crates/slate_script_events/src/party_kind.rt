//! Kinds of parties.

/// What a party is, which decides the calls that it has.
#[derive(Clone, Copy, Debug, Drop, PartialEq, Eq)]
pub enum PartyKind {
    /// It opens a database and raises its writer epoch.
    Writer,
    /// It opens a database and raises its compactor epoch, gives compactions to workers, and puts their outputs into the manifest.
    Compactor,
    /// It claims compactions, writes tables and reports them as outputs.
    Worker,
    /// It holds checkpoints.
    Holder,
    /// It runs passes of the garbage collector.
    Collector,
}
