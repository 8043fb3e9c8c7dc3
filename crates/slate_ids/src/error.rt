//! The refusals.
ghost use Rattle.std.specs.Prelude.{◌≡◌, IfOk};
ghost use Rattle.slate_ids.specs.declared.error.SlateDBError.TheVariants.{OutOfMemory as OutOfMemoryRefusal};
ghost use Rattle.slate_ids.specs.Answers.{is_memory, is_conflict};
ghost use Rattle.slate_ids.specs.Codes.{code_of};

use crate::checkpoint_id::CheckpointId;
use crate::out_of_memory::OutOfMemory;
use crate::plain::{Plain, clone_both};
use crate::text::Text;
use crate::ulid::Ulid;
use bytes::Bytes;
use std::alloc::{AllocError, AllocFailed, Global};
use std::fmt;
use thiserror::Error;

/// The update rule that a new version breaks. The others have refusals of their own.
#[derive(Clone, Copy, Debug, PartialEq, Eq)]
pub enum UpdateRule {
    /// Epochs, the last replayed WAL file and the floor don't fall.
    U1,
    /// A checkpoint names the new version or one that the old version names.
    U2,
    /// The entries of external databases only shrink.
    U3,
    /// Tables of sorted runs were in the old version or were made by this compactor.
    U5,
    /// A record that has entries keeps one.
    U8,
    /// Only a fenced holder removes entries of a record.
    U9,
}

/// Whose bytes are meant.
#[derive(Clone, Copy, Debug, PartialEq, Eq)]
pub enum FormatName {
    Manifest,
    Compactions,
    Info,
    Boundary,
}

/// A field whose value has no bytes.
#[derive(Clone, Copy, Debug, PartialEq, Eq)]
pub enum FieldName {
    /// The second at which a checkpoint expires is outside 1 to 2^32 - 1.
    ExpireTime,
    /// The second at which a checkpoint was made is outside 0 to 2^32 - 1.
    CreateTime,
    /// A WAL id stands in a tree, an entry or an output.
    WalId,
    /// Two unequal handles of one table.
    Handles,
    /// A table or a range without keys.
    NoKeys,
    /// The next WAL id is 0.
    NextWal,
    /// A length of 2^32 or more.
    Length,
}

/// Which state of the database or of a holder refuses a call.
#[derive(Clone, Copy, Debug, PartialEq, Eq)]
pub enum StateCause {
    /// The party's holder was never opened with success.
    NotOpen,
    NotInitialised,
    NoSuchCheckpoint(CheckpointId),
    NoSuchCompaction(Ulid),
    /// The compaction's status or worker isn't the one that the call needs.
    CompactionState(Ulid),
    BadSources(Ulid),
    NotUploaded(Ulid),
    CloneNotFresh,
    PinnedHasEntries,
    NotADatabase,
}

/// Why a call was refused.
#[derive(Debug, Drop, Error)]
pub enum SlateDBError {
    /// An object stood at the number (no boundary), or the boundary was at or above it.
    TransactionalObjectVersionExists {
        number: u64,
        boundary: Option<u64>,
    },
    /// The version read has the greater epoch `read`.
    Fenced {
        own: u64,
        read: u64,
    },
    /// The log has no version.
    LatestTransactionalObjectVersionMissing,
    /// This version wasn't there at its read.
    ManifestMissing(u64),
    /// The manifest lacks the id.
    CheckpointMissing(CheckpointId),
    /// An id is older than what stands.
    InvalidClockTick {
        last_tick: i64,
        next_tick: i64,
    },
    /// The new version breaks this rule.
    UpdateRefused(UpdateRule),
    /// The state doesn't allow the call.
    InvalidDBState(StateCause),
    /// A checked delete of a number that is still needed.
    InvalidDeletion(u64),
    /// Fewer than two bytes of a manifest.
    EmptyManifest,
    /// Fewer than two bytes of a record.
    InvalidCompaction,
    /// Version bytes that no layout has.
    InvalidVersion {
        format: FormatName,
        actual: u16,
    },
    /// Bytes outside the layout.
    Corrupt(FormatName),
    /// A value that has no bytes.
    Unencodable(FieldName),
    /// The compactor's segment of this prefix holds data and the writer has no such segment.
    SegmentWithoutWriter(Bytes),
    /// Two prefixes of segments nest.
    InvalidSegmentPrefix {
        prefix: Bytes,
        conflict: Bytes,
    },
    /// The extractor of segments is another than the one that the manifest names.
    SegmentExtractorMismatch {
        persisted: Option<Text>,
        configured: Option<Text>,
    },
    /// The extractor doesn't know a prefix of the manifest.
    SegmentPrefixNotRecognized {
        prefix: Bytes,
        extractor: Text,
    },
    /// The WAL store of the manifest is another than the configured one.
    WalStoreReconfigurationError,
    /// A store call failed. It had no effect or its whole effect.
    StoreFault,
    /// All tries were used.
    Contended,
    /// This number or epoch is the last, and the next is needed.
    Exhausted(u64),
    /// Memory ran out.
    OutOfMemory,
}

impl From<AllocError> for SlateDBError {
    ghost from_gives = { λ _ e. e ≡ OutOfMemoryRefusal };

    fn from(_e: AllocError) -> SlateDBError {
        SlateDBError::OutOfMemory
    }
}

impl From<OutOfMemory> for SlateDBError {
    ghost from_gives = { λ _ e. e ≡ OutOfMemoryRefusal };

    fn from(_e: OutOfMemory) -> SlateDBError {
        SlateDBError::OutOfMemory
    }
}

impl<T: Drop> From<AllocFailed<T>> for SlateDBError {
    ghost from_gives = { λ _ e. e ≡ OutOfMemoryRefusal };

    fn from(e: AllocFailed<T>) -> SlateDBError {
        drop(e);
        SlateDBError::OutOfMemory
    }
}

impl SlateDBError {
    /// The refusal's number, 1 to 23.
    pub fn code(&self) -> u8
        ensures { result ≡ code_of self.now }
    {
        match self {
            SlateDBError::TransactionalObjectVersionExists { .. } => 1,
            SlateDBError::Fenced { .. } => 2,
            SlateDBError::LatestTransactionalObjectVersionMissing => 3,
            SlateDBError::ManifestMissing(_) => 4,
            SlateDBError::CheckpointMissing(_) => 5,
            SlateDBError::InvalidClockTick { .. } => 6,
            SlateDBError::UpdateRefused(_) => 7,
            SlateDBError::InvalidDBState(_) => 8,
            SlateDBError::InvalidDeletion(_) => 9,
            SlateDBError::EmptyManifest => 10,
            SlateDBError::InvalidCompaction => 11,
            SlateDBError::InvalidVersion { .. } => 12,
            SlateDBError::Corrupt(_) => 13,
            SlateDBError::Unencodable(_) => 14,
            SlateDBError::SegmentWithoutWriter(_) => 15,
            SlateDBError::InvalidSegmentPrefix { .. } => 16,
            SlateDBError::SegmentExtractorMismatch { .. } => 17,
            SlateDBError::SegmentPrefixNotRecognized { .. } => 18,
            SlateDBError::WalStoreReconfigurationError => 19,
            SlateDBError::StoreFault => 20,
            SlateDBError::Contended => 21,
            SlateDBError::Exhausted(_) => 22,
            SlateDBError::OutOfMemory => 23,
        }
    }

    // What the refusal says. That of a missing checkpoint says the id too.
    fn text(&self) -> &'static str {
        match self {
            SlateDBError::TransactionalObjectVersionExists { .. } =>
                "TransactionalObjectVersionExists",
            SlateDBError::Fenced { .. } => "Fenced",
            SlateDBError::LatestTransactionalObjectVersionMissing =>
                "Data error: failed to find latest transactional object (e.g. manifest) version",
            SlateDBError::ManifestMissing(_) => "ManifestMissing",
            SlateDBError::CheckpointMissing(_) => "Data error: checkpoint missing",
            SlateDBError::InvalidClockTick { .. } => "InvalidClockTick",
            SlateDBError::UpdateRefused(_) => "UpdateRefused",
            SlateDBError::InvalidDBState(_) => "Data error: invalid DB state error",
            SlateDBError::InvalidDeletion(_) => "InvalidDeletion",
            SlateDBError::EmptyManifest => "EmptyManifest",
            SlateDBError::InvalidCompaction => "InvalidCompaction",
            SlateDBError::InvalidVersion { .. } => "InvalidVersion",
            SlateDBError::Corrupt(_) => "Corrupt",
            SlateDBError::Unencodable(_) => "Unencodable",
            SlateDBError::SegmentWithoutWriter(_) => "SegmentWithoutWriter",
            SlateDBError::InvalidSegmentPrefix { .. } => "InvalidSegmentPrefix",
            SlateDBError::SegmentExtractorMismatch { .. } => "SegmentExtractorMismatch",
            SlateDBError::SegmentPrefixNotRecognized { .. } => "SegmentPrefixNotRecognized",
            SlateDBError::WalStoreReconfigurationError => "WalStoreReconfigurationError",
            SlateDBError::StoreFault => "StoreFault",
            SlateDBError::Contended => "Contended",
            SlateDBError::Exhausted(_) => "Exhausted",
            SlateDBError::OutOfMemory => "OutOfMemory",
        }
    }

    /// An equal refusal.
    pub fn copy(&self, alloc: Global) -> Result<SlateDBError, OutOfMemory>
        ensures { IfOk result (λ copied. copied ≡ self.now) }
    {
        Ok(match self {
            Self::TransactionalObjectVersionExists { number, boundary } => {
                Self::TransactionalObjectVersionExists {
                    number: *number,
                    boundary: *boundary,
                }
            }
            &Self::Fenced { own, read } => Self::Fenced { own, read },
            Self::LatestTransactionalObjectVersionMissing => {
                Self::LatestTransactionalObjectVersionMissing
            }
            Self::ManifestMissing(n) => Self::ManifestMissing(*n),
            Self::CheckpointMissing(id) => Self::CheckpointMissing(*id),
            Self::InvalidClockTick {
                last_tick,
                next_tick,
            } => Self::InvalidClockTick {
                last_tick: *last_tick,
                next_tick: *next_tick,
            },
            Self::UpdateRefused(rule) => Self::UpdateRefused(*rule),
            Self::InvalidDBState(cause) => Self::InvalidDBState(*cause),
            Self::InvalidDeletion(n) => Self::InvalidDeletion(*n),
            Self::EmptyManifest => Self::EmptyManifest,
            Self::InvalidCompaction => Self::InvalidCompaction,
            Self::InvalidVersion { format, actual } => Self::InvalidVersion {
                format: *format,
                actual: *actual,
            },
            Self::Corrupt(format) => Self::Corrupt(*format),
            Self::Unencodable(field) => Self::Unencodable(*field),
            Self::SegmentWithoutWriter(prefix) => {
                Self::SegmentWithoutWriter(Plain::clone(prefix, alloc)?)
            }
            Self::InvalidSegmentPrefix { prefix, conflict } => {
                let (prefix, conflict) = clone_both(alloc, prefix, conflict)?;
                Self::InvalidSegmentPrefix { prefix, conflict }
            }
            Self::SegmentExtractorMismatch {
                persisted,
                configured,
            } => {
                let (persisted, configured) = clone_both(alloc, persisted, configured)?;
                Self::SegmentExtractorMismatch {
                    persisted,
                    configured,
                }
            }
            Self::SegmentPrefixNotRecognized { prefix, extractor } => {
                let (prefix, extractor) = clone_both(alloc, prefix, extractor)?;
                Self::SegmentPrefixNotRecognized { prefix, extractor }
            }
            Self::WalStoreReconfigurationError => { Self::WalStoreReconfigurationError }
            Self::StoreFault => Self::StoreFault,
            Self::Contended => Self::Contended,
            Self::Exhausted(n) => Self::Exhausted(*n),
            Self::OutOfMemory => Self::OutOfMemory,
        })
    }

    /// Whether memory ran out.
    pub fn is_memory(&self) -> bool
        ensures { result ≡ is_memory self.now }
    {
        matches!(self, SlateDBError::OutOfMemory)
    }

    /// Whether the number was taken.
    pub fn is_conflict(&self) -> bool
        ensures { result ≡ is_conflict self.now }
    {
        matches!(self, SlateDBError::TransactionalObjectVersionExists { .. })
    }
}

impl fmt::Display for SlateDBError {
    fn fmt<W: fmt::Write>(&self, f: &mut fmt::Formatter<W>) -> fmt::Result {
        let text = self.text();
        match self {
            SlateDBError::CheckpointMissing(id) => write!(f, "{text}. checkpoint_id=`{id}`"),
            _ => f.write_str(text),
        }
    }
}
