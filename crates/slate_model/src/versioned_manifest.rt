//! A version of a database's log.
ghost use Rattle.std.specs.Prelude.{◌≡◌, IfOk, option_copied};
ghost use Rattle.slate_model.specs.Segments.{IsAscending, segment_at};

use crate::checkpoint::Checkpoint;
use crate::external_db::ExternalDb;
use crate::manifest::Manifest;
use crate::manifest_core::ManifestCore;
use crate::segment::Segment;
use crate::segment_search::segment_of;
use crate::sequence_tracker::SequenceTracker;
use slate_ids::{OutOfMemory, Text, Ulid};
use slate_model_tables::{Plain, SortedRun, SsTableView};
use std::alloc::Global;
use std::collections::VecDeque;
use std::marker::Model;

/// A version of a database's log: its number and its manifest.
#[derive(Debug, Drop)]
pub struct VersionedManifest {
    id: u64,
    manifest: Manifest,
}

impl Model for VersionedManifest {
    ghost use Rattle.slate_model.specs.Manifests.{Version};

    ghost Value = { Version };

    ghost view = { λ a. record { id = a.id; manifest = a.manifest } };

    ghost inverse = { λ d. record { id = d.id; manifest = d.manifest } };
}

fn text_of(text: &Option<Text>) -> Option<&str>
    ensures { option_copied result ≡ text.now }
{
    match text {
        Some(text) => Some(text.as_str()),
        None => None,
    }
}

impl VersionedManifest {
    /// The version of this number. Takes no memory.
    pub fn new(id: u64, manifest: Manifest) -> VersionedManifest
        ensures { result ≡ record { id = id; manifest = manifest } }
    {
        VersionedManifest { id, manifest }
    }

    /// The version's number.
    pub fn id(&self) -> u64
        ensures { result ≡ self.now.id }
    {
        self.id
    }

    /// The epoch of the last writer that opened the database.
    pub fn writer_epoch(&self) -> u64
        ensures { result ≡ self.now.manifest.writer_epoch }
    {
        self.manifest.writer_epoch
    }

    /// The epoch of the last compactor that opened the database.
    pub fn compactor_epoch(&self) -> u64
        ensures { result ≡ self.now.manifest.compactor_epoch }
    {
        self.manifest.compactor_epoch
    }

    /// The other databases whose tables this one uses.
    pub fn external_dbs(&self) -> &Vec<ExternalDb>
        ensures { result.now.items ≡ self.now.manifest.external_dbs }
    {
        self.manifest.external_dbs.as_vec()
    }

    /// Whether the database is ready for use.
    pub fn initialized(&self) -> bool
        ensures { result ≡ self.now.manifest.core.initialized }
    {
        self.core().initialized
    }

    /// The view that was compacted last of those that flushes wrote, of the root tree.
    pub fn last_compacted_l0_sst_view_id(&self) -> Option<Ulid>
        ensures { result ≡ self.now.manifest.core.tree.last_compacted_l0_sst_view_id }
    {
        self.core().tree.last_compacted_l0_sst_view_id
    }

    /// The table that was compacted last of those that flushes wrote, of the root tree.
    pub fn last_compacted_l0_sst_id(&self) -> Option<Ulid>
        ensures { result ≡ self.now.manifest.core.tree.last_compacted_l0_sst_id }
    {
        self.core().tree.last_compacted_l0_sst_id
    }

    /// The views of the root tree's tables that flushes wrote and no compaction took, the newest first.
    pub fn l0(&self) -> &VecDeque<SsTableView>
        ensures { result.now.items ≡ self.now.manifest.core.tree.l0 }
    {
        self.core().tree.l0.as_deque()
    }

    /// The root tree's sorted runs, the newest first.
    pub fn compacted(&self) -> &Vec<SortedRun>
        ensures { result.now.items ≡ self.now.manifest.core.tree.compacted }
    {
        self.core().tree.compacted.as_vec()
    }

    /// The number of the next file of the write-ahead log.
    pub fn next_wal_sst_id(&self) -> u64
        ensures { result ≡ self.now.manifest.core.next_wal_sst_id }
    {
        self.core().next_wal_sst_id
    }

    /// The last file of the write-ahead log whose rows are all in tables.
    pub fn replay_after_wal_id(&self) -> u64
        ensures { result ≡ self.now.manifest.core.replay_after_wal_id }
    {
        self.core().replay_after_wal_id
    }

    /// The last clock tick of the newest flushed table, in milliseconds.
    pub fn last_l0_clock_tick(&self) -> i64
        ensures { result ≡ self.now.manifest.core.last_l0_clock_tick }
    {
        self.core().last_l0_clock_tick
    }

    /// The last sequence number of the newest flushed table.
    pub fn last_l0_seq(&self) -> u64
        ensures { result ≡ self.now.manifest.core.last_l0_seq }
    {
        self.core().last_l0_seq
    }

    /// The least sequence number that a snapshot may still need.
    pub fn recent_snapshot_min_seq(&self) -> u64
        ensures { result ≡ self.now.manifest.core.recent_snapshot_min_seq }
    {
        self.core().recent_snapshot_min_seq
    }

    /// Moments of sequence numbers.
    pub fn sequence_tracker(&self) -> &SequenceTracker
        ensures { result.now ≡ self.now.manifest.core.sequence_tracker }
    {
        &self.core().sequence_tracker
    }

    /// The versions that are kept, by the checkpoints that name them.
    pub fn checkpoints(&self) -> &Vec<Checkpoint>
        ensures { result.now.items ≡ self.now.manifest.core.checkpoints }
    {
        self.core().checkpoints.as_vec()
    }

    /// The store of the write-ahead log, where it is another.
    pub fn wal_object_store_uri(&self) -> Option<&str>
        ensures { option_copied result ≡ self.now.manifest.core.wal_object_store_uri }
    {
        text_of(&self.core().wal_object_store_uri)
    }

    /// What finds the segments of keys.
    pub fn segment_extractor_name(&self) -> Option<&str>
        ensures { option_copied result ≡ self.now.manifest.core.segment_extractor_name }
    {
        text_of(&self.core().segment_extractor_name)
    }

    /// The segments, ascending by prefix. No prefix is empty.
    pub fn segments(&self) -> &[Segment]
        ensures segments { result.now ≡ self.now.manifest.core.segments }
        ensures ascending { IsAscending self.now.manifest.core.segments }
    {
        self.core().segments()
    }

    /// The segment of exactly this prefix.
    pub fn segment(&self, prefix: &[u8]) -> Option<&Segment>
        ensures { option_copied result ≡ segment_at prefix.now self.now.manifest.core.segments }
    {
        segment_of(self.segments(), prefix)
    }

    /// The moment, in milliseconds since the Unix epoch, that no new table may be older than.
    pub fn floor(&self) -> u64
        ensures { result ≡ self.now.manifest.core.floor }
    {
        self.core().floor
    }

    /// What the manifest says of the database itself.
    pub fn core(&self) -> &ManifestCore
        ensures { result.now ≡ self.now.manifest.core }
    {
        &self.manifest.core
    }

    /// The manifest.
    pub fn manifest(&self) -> &Manifest
        ensures { result.now ≡ self.now.manifest }
    {
        &self.manifest
    }

    /// An equal value. It shares the keys.
    pub fn clone(&self, alloc: Global) -> Result<VersionedManifest, OutOfMemory>
        ensures { IfOk result (λ copied. copied ≡ self.now) }
    {
        Ok(VersionedManifest {
            id: self.id,
            manifest: self.manifest.clone(alloc)?,
        })
    }
}

impl Plain for VersionedManifest {
    fn clone(&self, alloc: Global) -> Result<VersionedManifest, OutOfMemory> {
        VersionedManifest::clone(self, alloc)
    }

    fn is(&self, other: &VersionedManifest) -> bool {
        self.id == other.id && self.manifest.is(&other.manifest)
    }
}
