//! The list of a pass: what follows the answer.
ghost use Rattle.std.specs.Prelude.{◌≡◌, ◌<◌, option_copied, IfOk};
ghost use Rattle.slate_txn_log.specs.Boundary as boundaries;
ghost use Rattle.slate_txn_log.specs.Due.{NeverOut, StillDue, WhereOut};
ghost use Rattle.slate_txn_log.specs.declared.log_kind.LogKind.TheVariants as kinds;
ghost use Rattle.slate_gc_passes.specs.Candidates as picking;
ghost use Rattle.slate_gc_passes.specs.Pass as pass;
ghost use Rattle.slate_gc_passes.specs.Stages.{stages_within};
ghost use Rattle.slate_gc_passes.specs.declared.pass_phase.PassPhase.TheVariants as phases;
ghost use Rattle.slate_gc_picks.specs.Filter.{allowed};
ghost use Rattle.slate_gc_picks.specs.WalFiles.{collected};
ghost use Rattle.slate_gc_picks.specs.WalPicks as walled;
ghost use Rattle.slate_gc_picks.specs.WalRanges.{wal_ranges};
ghost use Rattle.slate_gc_picks.specs.declared.wal_gc.WalGcMode.TheVariants as modes;
ghost use Rattle.slate_store.specs.Machines.{GoesOn, GoesOnAlways, IsAgain};

use crate::collecting::{Onward, chosen, refused};
use crate::heads::Heads;
use crate::pass_phase::PassPhase;
use crate::pass_settings::PassSettings;
use crate::rows::reads_greatest;
use slate_gc_picks::{
    GcFilter, PlainWalGc, WalGc, WalGcMode, aged, referenced_wal_ranges, unneeded, unused_tables,
    wal_candidates,
};
use slate_ids::{GcMessage, Listed, Millis, OutOfMemory, SlateDBError};
use slate_state_referenced::ManifestMap;
use slate_store::{ObjectMetadata, Step, StoreAnswer};
use slate_txn_log::{LogKind, greatest};
use std::alloc::Global;

// Of listed records the aged ones below the greatest listed.
fn old_records(
    alloc: Global,
    min_age: u64,
    now: Millis,
    found: &[ObjectMetadata],
) -> Result<Listed<ObjectMetadata>, OutOfMemory>
    ensures { IfOk result (λ candidates. candidates
        ≡ picking.old_records min_age now found.now (boundaries.greatest kinds.Compactions found.now)) }
{
    match greatest(LogKind::Compactions, found) {
        None => Ok(Listed::new(alloc)),
        Some(n) => {
            let old = aged(alloc, min_age, now, found)?;
            let kept = unneeded(alloc, LogKind::Compactions, n, &[], old.as_slice());
            drop(old);
            kept
        }
    }
}

// The candidates of the pass over the files of the write-ahead log.
fn files<W: WalGc>(
    alloc: Global,
    wal: Option<&W>,
    min_age: u64,
    now: Millis,
    heads: &Heads,
    versions: &ManifestMap,
    found: &[ObjectMetadata],
) -> Result<Listed<ObjectMetadata>, OutOfMemory>
    ensures { IfOk result (λ candidates. candidates ≡ walled.wal_candidates W.picked (option_copied wal.entry)
        (wal_ranges heads.now.latest versions.now) found.now min_age now) }
{
    let ranges = referenced_wal_ranges(alloc, heads.latest, versions.as_map())?;
    let candidates = wal_candidates(alloc, wal, ranges.as_slice(), found, min_age, now);
    drop(ranges);
    candidates
}

// The candidates of the pass over the empty files of the write-ahead log.
fn fences(
    alloc: Global,
    min_age: u64,
    now: Millis,
    heads: &Heads,
    versions: &ManifestMap,
    found: &[ObjectMetadata],
) -> Result<Listed<ObjectMetadata>, OutOfMemory>
    ensures { IfOk result (λ candidates. candidates ≡ collected modes.Fence (wal_ranges heads.now.latest versions.now) found.now min_age now) }
{
    let ranges = referenced_wal_ranges(alloc, heads.latest, versions.as_map())?;
    let plain = PlainWalGc {
        mode: WalGcMode::Fence,
    };
    let picked = plain.picks(alloc, ranges.as_slice(), found, min_age, now);
    drop(ranges);
    Ok(Listed::from_vec(picked?))
}

// The candidates of a pass that reads nothing after its list.
fn candidates<W: WalGc>(
    alloc: Global,
    wal: Option<&W>,
    settings: &PassSettings,
    now: Millis,
    heads: &Heads,
    versions: &ManifestMap,
    found: &[ObjectMetadata],
) -> Result<Listed<ObjectMetadata>, OutOfMemory>
    ensures { IfOk result (λ candidates. candidates
        ≡ picking.candidates (walled.wal_candidates W.picked (option_copied wal.entry)) settings.now.options.min_age now
        heads.now versions.now found.now settings.now.pass) }
{
    let min_age = settings.options.min_age;
    match settings.pass {
        GcMessage::Compactions => old_records(alloc, min_age, now, found),
        GcMessage::Compacted => unused_tables(
            alloc,
            min_age,
            now,
            heads.least,
            heads.watermark,
            versions.as_map(),
            found,
        ),
        GcMessage::Wal => files(alloc, wal, min_age, now, heads, versions, found),
        GcMessage::WalFence => fences(alloc, min_age, now, heads, versions, found),
        GcMessage::Manifest | GcMessage::Detach => Ok(Listed::new(alloc)),
    }
}

// The candidates, and what follows of them.
fn after_candidates<F: GcFilter, W: WalGc>(
    alloc: Global,
    filter: Option<&F>,
    wal: Option<&W>,
    settings: &PassSettings,
    now: Millis,
    heads: &Heads,
    versions: &ManifestMap,
    found: &[ObjectMetadata],
) -> Result<Onward, OutOfMemory>
    ensures goes { IfOk result (λ onward. GoesOnAlways
        (pass.others_goes (allowed F.returns (option_copied filter.entry))
        (walled.wal_candidates W.picked (option_copied wal.entry)) settings.now now
        heads.now versions.now found.now) onward.0 onward.1) }
    ensures due { IfOk result (λ onward. StillDue onward.1 (pass.pass_due onward.0)) }
    ensures stages { IfOk result (λ onward. IsAgain onward.1 → stages_within onward.0 < 3) }
    ensures memory { IfOk result (λ onward. NeverOut onward.1) }
{
    let candidates = candidates(alloc, wal, settings, now, heads, versions, found)?;
    let onward = chosen(
        alloc,
        filter,
        settings,
        found.len() as u64,
        candidates.as_slice(),
    );
    drop(candidates);
    onward
}

// The greatest of the listed manifests is to be got, where there is one.
fn after_manifests(
    alloc: Global,
    min_age: u64,
    now: Millis,
    heads: Heads,
    versions: ManifestMap,
    found: &[ObjectMetadata],
) -> Onward
    ensures goes { GoesOn (pass.manifests_goes min_age now found.now (boundaries.greatest kinds.Manifest found.now))
        (phases.Listing heads versions) result.0 result.1 }
    ensures due { StillDue result.1 (pass.pass_due result.0) }
    ensures stages { IsAgain result.1 → stages_within result.0 < 5 }
    ensures memory { WhereOut result.1 (result.0 ≡ phases.Listing heads versions) }
{
    match greatest(LogKind::Manifest, found) {
        None => {
            drop(versions);
            refused(SlateDBError::LatestTransactionalObjectVersionMissing)
        }
        Some(n) => match aged(alloc, min_age, now, found) {
            Ok(old) => {
                drop(versions);
                (PassPhase::Getting(n, found.len() as u64, old), Step::Again)
            }
            Err(_) => (
                PassPhase::Listing(heads, versions),
                Step::Done(Err(SlateDBError::OutOfMemory)),
            ),
        },
    }
}

// What was listed: the pass over the manifests reads the greatest, any other has its candidates.
fn after_found<F: GcFilter, W: WalGc>(
    alloc: Global,
    filter: Option<&F>,
    wal: Option<&W>,
    settings: &PassSettings,
    now: Millis,
    heads: Heads,
    versions: ManifestMap,
    found: &[ObjectMetadata],
) -> Onward
    ensures goes { GoesOn (pass.found_goes (allowed F.returns (option_copied filter.entry))
        (walled.wal_candidates W.picked (option_copied wal.entry)) settings.now now heads versions found.now)
        (phases.Listing heads versions) result.0 result.1 }
    ensures due { StillDue result.1 (pass.pass_due result.0) }
    ensures stages { IsAgain result.1 → stages_within result.0 < 5 }
    ensures memory { WhereOut result.1 (result.0 ≡ phases.Listing heads versions) }
{
    if reads_greatest(settings.pass) {
        return after_manifests(alloc, settings.options.min_age, now, heads, versions, found);
    }
    match after_candidates(alloc, filter, wal, settings, now, &heads, &versions, found) {
        Ok(onward) => {
            drop(versions);
            onward
        }
        Err(_) => (
            PassPhase::Listing(heads, versions),
            Step::Done(Err(SlateDBError::OutOfMemory)),
        ),
    }
}

/// After the list. Running out of memory leaves the phase as it was.
pub(crate) fn after_list<F: GcFilter, W: WalGc>(
    alloc: Global,
    filter: Option<&F>,
    wal: Option<&W>,
    settings: &PassSettings,
    now: Millis,
    heads: Heads,
    versions: ManifestMap,
    answer: &StoreAnswer,
) -> Onward
    ensures goes { GoesOn (pass.list_goes (allowed F.returns (option_copied filter.entry))
        (walled.wal_candidates W.picked (option_copied wal.entry)) settings.now now heads versions answer.now)
        (phases.Listing heads versions) result.0 result.1 }
    ensures due { StillDue result.1 (pass.pass_due result.0) }
    ensures stages { IsAgain result.1 → stages_within result.0 < 5 }
    ensures memory { WhereOut result.1 (result.0 ≡ phases.Listing heads versions) }
{
    match answer {
        StoreAnswer::Found(found) => after_found(
            alloc,
            filter,
            wal,
            settings,
            now,
            heads,
            versions,
            found.as_slice(),
        ),
        _ => {
            drop(versions);
            refused(SlateDBError::StoreFault)
        }
    }
}
