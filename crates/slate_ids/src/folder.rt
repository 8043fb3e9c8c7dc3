//! The folders of a database, and the objects of which a database has one.
ghost use Rattle.std.specs.Prelude.{◌≡◌};
ghost use Rattle.slate_ids.specs.PathText.{front_of, past_of, suffix_of};

/// What stands after a database and `/` in the path of the boundary of manifests.
pub(crate) const MANIFEST_BOUNDARY: &str = "gc/manifest.boundary";

/// The same of the boundary of records.
pub(crate) const RECORD_BOUNDARY: &str = "gc/compactions.boundary";

/// The same of the mark of a database that is being deleted.
pub(crate) const MARKER: &str = ".deleting";

/// A folder of a database, in which the objects have names of one form.
#[derive(Clone, Copy)]
pub enum Folder {
    /// The versions of the manifest, named by their numbers.
    Manifests,
    /// The versions of the compaction record, named by their numbers.
    Records,
    /// The tables, named by their ids.
    Tables,
    /// The files of the write-ahead log, named by their numbers.
    Wals,
}

impl Folder {
    /// What stands before a name.
    pub fn front(self) -> &'static str
        ensures { result.now ≡ front_of self }
    {
        match self {
            Folder::Manifests => "manifest/",
            Folder::Records => "compactions/",
            Folder::Tables => "compacted/",
            Folder::Wals => "wal/",
        }
    }

    /// The first text past all that begin so.
    pub fn past(self) -> &'static str
        ensures { result.now ≡ past_of self }
    {
        match self {
            Folder::Manifests => "manifest0",
            Folder::Records => "compactions0",
            Folder::Tables => "compacted0",
            Folder::Wals => "wal0",
        }
    }

    /// What ends a name.
    pub fn suffix(self) -> &'static str
        ensures { result.now ≡ suffix_of self }
    {
        match self {
            Folder::Manifests => ".manifest",
            Folder::Records => ".compactions",
            Folder::Tables => ".sst",
            Folder::Wals => ".sst",
        }
    }
}
