//! What picks the files of the write-ahead log that a pass may delete.
ghost use Rattle.std.specs.Prelude.{◌≡◌, List, IfOk};
ghost use Rattle.slate_ids.specs.declared.number_range.NumberRange.{NumberRange as AnyRange};
ghost use Rattle.slate_gc_picks.specs.WalCovers.{Covers};
ghost use Rattle.slate_gc_picks.specs.WalFiles as files;

use crate::ages::is_aged;
use crate::keeping::push_if;
use crate::wal_cover::{WalSpan, cover_of, has_number};
use crate::wal_ranges::WalFileRange;
use slate_ids::{Listed, Millis, ObjectPath, OutOfMemory};
use slate_store::ObjectMetadata;
use std::alloc::Global;

/// What picks the files of the write-ahead log that may go. It is handed in by the caller, boxed, and is taken at its word.
pub trait WalGc: Drop {
    ghost use Rattle.std.specs.Prelude.{ℕ, ℤ, List};
    ghost use Rattle.slate_ids.specs.declared.number_range.NumberRange.{NumberRange as Range};
    ghost use Rattle.slate_store.specs.declared.object.ObjectMetadata.{ObjectMetadata as Metadata};

    /// What it answers for ranges, listed files, a least age and a moment.
    ghost picked: { Self → List Range → List Metadata → ℕ → ℤ → List Metadata };

    /// The files that may go, of those listed. `referenced` has the numbers that needed versions of the manifest have to keep,
    /// `min_age` is in milliseconds, `now` is the moment of the pass.
    fn picks(
        &self,
        alloc: Global,
        referenced: &[WalFileRange],
        listed: &[ObjectMetadata],
        min_age: u64,
        now: Millis,
    ) -> Result<Vec<ObjectMetadata>, OutOfMemory>
        ensures { IfOk result (λ found. found.items ≡ picked self.now referenced.now listed.now min_age now) };
}

/// A boxed one picks what is in the box.
impl WalGc for Box<dyn WalGc> {
    ghost picked = { λ boxed. (WalGc-box boxed).picked boxed.value };

    fn picks(
        &self,
        alloc: Global,
        referenced: &[WalFileRange],
        listed: &[ObjectMetadata],
        min_age: u64,
        now: Millis,
    ) -> Result<Vec<ObjectMetadata>, OutOfMemory> {
        (**self).picks(alloc, referenced, listed, min_age, now)
    }
}

/// Which files the plain one picks.
#[derive(Clone, Copy, Debug, PartialEq, Eq)]
pub enum WalGcMode {
    /// All that no needed version has to keep.
    Regular,
    /// The empty ones of them, which fenced a writer.
    Fence,
}

/// Picks the listed files that no needed version has to keep and that are older than the least age. Takes `n log n` steps in files and
/// ranges.
#[derive(Clone, Copy, Debug, Drop)]
pub struct PlainWalGc {
    pub mode: WalGcMode,
}

// Whether an object is a file in none of the ranges that are covered.
fn is_unreferenced(cover: &[WalSpan], object: &ObjectMetadata) -> bool
    ensures { (ranges : List AnyRange) → Covers cover.now ranges
        → result ≡ files.is_unreferenced ranges object.now.location }
{
    match &object.location {
        ObjectPath::Wal(_, number) => !has_number(cover, *number),
        _ => false,
    }
}

impl WalGcMode {
    // Whether files of this size are wanted.
    fn has_size(self, size: u64) -> bool
        ensures { result ≡ files.has_size self size }
    {
        match self {
            WalGcMode::Regular => true,
            WalGcMode::Fence => size == 0,
        }
    }

    // Whether an object is a file that may go, in none of the ranges that are covered.
    fn takes(self, cover: &[WalSpan], min_age: u64, now: Millis, object: &ObjectMetadata) -> bool
        ensures { (ranges : List AnyRange) → Covers cover.now ranges
            → result ≡ files.is_collected self ranges min_age now object.now }
    {
        is_unreferenced(cover, object)
            && is_aged(min_age, now, object.last_modified)
            && self.has_size(object.size)
    }

    // Those of the listed files that may go.
    pub(crate) fn collected(
        self,
        alloc: Global,
        ranges: &[WalFileRange],
        listed: &[ObjectMetadata],
        min_age: u64,
        now: Millis,
    ) -> Result<Listed<ObjectMetadata>, OutOfMemory>
        ensures { IfOk result (λ found. found
            ≡ files.collected self ranges.now listed.now min_age now) }
    {
        let cover = cover_of(alloc, ranges)?;
        let mut found = Listed::new(alloc);
        for object in listed {
            let keeps = self.takes(cover.as_slice(), min_age, now, object);
            push_if(alloc, keeps, &mut found, object)?;
        }
        drop(cover);
        Ok(found)
    }
}

impl WalGc for PlainWalGc {
    ghost picked = { λ plain. files.collected plain.mode };

    fn picks(
        &self,
        alloc: Global,
        referenced: &[WalFileRange],
        listed: &[ObjectMetadata],
        min_age: u64,
        now: Millis,
    ) -> Result<Vec<ObjectMetadata>, OutOfMemory> {
        Ok(
            self.mode
                .collected(alloc, referenced, listed, min_age, now)?
                .into_vec(),
        )
    }
}
