//! Whether a database may be opened with what its caller configured.
ghost use Rattle.std.specs.Prelude.{◌≡◌, Ok, Err, None, IfOk, not, option_map, option_copied, if◌then◌else◌};
ghost use Rattle.slate_ids.specs.Answers.{Gives, refused};
ghost use Rattle.slate_ids.specs.declared.error.SlateDBError.TheVariants.{SegmentExtractorMismatch, SegmentPrefixNotRecognized, WalStoreReconfigurationError};
ghost use Rattle.std.specs.List.{find};
ghost use Rattle.slate_model.specs.Validation as validation;
ghost use Rattle.slate_model.specs.Validation.{refusal_by, prefix_refusal, same_wal_store};

use crate::manifest_core::ManifestCore;
use crate::prefix_extractor::PrefixExtractor;
use crate::segment::Segment;
use bytes::Bytes;
use slate_ids::{OutOfMemory, Plain, SlateDBError, Text};
use std::alloc::Global;

// Whether an extractor finds all of a segment's prefix in it.
fn recognizes(extractor: &dyn PrefixExtractor, segment: &Segment) -> bool
    ensures { result ≡ validation.recognizes (means extractor.now) segment.now }
{
    extractor.prefix_len(segment.prefix()) == Some(segment.prefix().len())
}

// The first segment whose prefix an extractor doesn't find.
fn first_unknown<'a>(
    extractor: &dyn PrefixExtractor,
    segments: &'a [Segment],
) -> Option<&'a Segment>
    ensures { option_copied result
        ≡ find (λ s. not (validation.recognizes (means extractor.now) s)) segments.now }
{
    for segment in segments {
        if !recognizes(extractor, segment) {
            return Some(segment);
        }
    }
    None
}

// A copy of a name, where there is one.
fn copied(alloc: Global, name: Option<&str>) -> Result<Option<Text>, OutOfMemory>
    ensures { IfOk result (λ text. text ≡ option_copied name.entry) }
{
    match name {
        Some(name) => Ok(Some(Text::copy_of(alloc, name)?)),
        None => Ok(None),
    }
}

// The refusal of a configured extractor, or of none, that isn't the persisted one.
fn mismatch(
    alloc: Global,
    persisted: Option<&str>,
    configured: Option<&str>,
) -> Result<SlateDBError, OutOfMemory>
    ensures { IfOk result (λ e.
        e ≡ SegmentExtractorMismatch (option_copied persisted.entry) (option_copied configured.entry)) }
{
    let persisted = copied(alloc, persisted)?;
    match copied(alloc, configured) {
        Ok(configured) => Ok(SlateDBError::SegmentExtractorMismatch {
            persisted,
            configured,
        }),
        Err(e) => {
            drop(persisted);
            Err(e)
        }
    }
}

// The refusal of a prefix that an extractor of this name doesn't find.
fn not_recognized(alloc: Global, prefix: &Bytes, name: &str) -> Result<SlateDBError, OutOfMemory>
    ensures { IfOk result (λ e. e ≡ SegmentPrefixNotRecognized prefix.now name.now) }
{
    let extractor = Text::copy_of(alloc, name)?;
    match Plain::clone(prefix, alloc) {
        Ok(prefix) => Ok(SlateDBError::SegmentPrefixNotRecognized { prefix, extractor }),
        Err(e) => {
            drop(extractor);
            Err(e)
        }
    }
}

// Whether an extractor of the persisted name finds the prefix of each segment.
fn check_prefixes(
    alloc: Global,
    extractor: &dyn PrefixExtractor,
    segments: &[Segment],
) -> Result<(), SlateDBError>
    ensures refusal { Gives result (refused (prefix_refusal (means extractor.now) segments.now)) }
    ensures free { prefix_refusal (means extractor.now) segments.now ≡ None → result ≡ Ok tt }
{
    match first_unknown(extractor, segments) {
        None => Ok(()),
        Some(segment) => Err(not_recognized(alloc, segment.prefix(), extractor.name())?),
    }
}

impl ManifestCore {
    /// Whether the extractor is the one that the database was made with: neither is there, or both have one name and it finds each
    /// segment's prefix whole. SegmentExtractorMismatch where the names differ, or one is missing; SegmentPrefixNotRecognized of the first
    /// segment whose prefix it doesn't find. Takes no memory where it is the one.
    pub fn validate_extractor_configuration(
        &self,
        alloc: Global,
        configured: Option<&dyn PrefixExtractor>,
    ) -> Result<(), SlateDBError>
        ensures refusal { Gives result
            (refused (refusal_by (option_map (λ e. means e.now) configured.entry) self.now)) }
        ensures free { refusal_by (option_map (λ e. means e.now) configured.entry) self.now ≡ None
            → result ≡ Ok tt }
    {
        match (&self.segment_extractor_name, configured) {
            (None, None) => Ok(()),
            (Some(persisted), None) => Err(mismatch(alloc, Some(persisted.as_str()), None)?),
            (None, Some(configured)) => Err(mismatch(alloc, None, Some(configured.name()))?),
            (Some(persisted), Some(configured)) => {
                if persisted.as_str() == configured.name() {
                    check_prefixes(alloc, configured, self.segments())
                } else {
                    Err(mismatch(alloc, Some(persisted.as_str()), Some(configured.name()))?)
                }
            }
        }
    }

    /// Whether the store of the write-ahead log is the one that the manifest names, where it names one; else
    /// WalStoreReconfigurationError. Takes no memory.
    pub fn validate_wal_object_store_uri(&self, uri: Option<&str>) -> Result<(), SlateDBError>
        ensures { result ≡ (if same_wal_store self.now.wal_object_store_uri (option_copied uri.entry)
            then Ok tt else Err WalStoreReconfigurationError) }
    {
        match (&self.wal_object_store_uri, uri) {
            (None, _) => Ok(()),
            (Some(persisted), Some(configured)) if persisted.as_str() == configured => Ok(()),
            _ => Err(SlateDBError::WalStoreReconfigurationError),
        }
    }
}
