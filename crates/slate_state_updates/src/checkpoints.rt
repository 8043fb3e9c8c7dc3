//! What the checkpoint calls, and the passes of a collector, make of a manifest.
ghost use Rattle.std.specs.Prelude.{◌≡◌, ◌++◌, ◌∷◌, [], map, filter, not, IfOk};
ghost use Rattle.std.specs.List.{list_any};
ghost use Rattle.slate_ids.specs.Answers.{Gives};
ghost use Rattle.slate_state_updates.specs.Checkpoints as made;

use crate::checkpointed::with_checkpoints;
use crate::lookups::find_checkpoint;
use slate_ids::{CheckpointId, Listed, Millis, OutOfMemory, SlateDBError, StateCause};
use slate_model::{Checkpoint, CheckpointOptions, Manifest, Plain};
use std::alloc::Global;

// The number of the version after this one.
fn number_after(n: u64) -> Result<u64, SlateDBError>
    ensures { result ≡ made.number_after n }
{
    match n.checked_add(1) {
        Some(next) => Ok(next),
        None => Err(SlateDBError::Exhausted(n)),
    }
}

// The version of the source of a checkpoint.
fn source_version(source: CheckpointId, manifest: &Manifest) -> Result<u64, SlateDBError>
    ensures { result ≡ made.source_version source (made.checkpoint_at source manifest.now.core.checkpoints) }
{
    match find_checkpoint(manifest.core.checkpoints.as_slice(), &source) {
        Some(checkpoint) => Ok(checkpoint.manifest_id),
        None => Err(SlateDBError::CheckpointMissing(source)),
    }
}

// The version that a new checkpoint names: its source's, or the one that its commit makes after version `n`.
fn version_to_name(
    n: u64,
    source: Option<CheckpointId>,
    manifest: &Manifest,
) -> Result<u64, SlateDBError>
    ensures { result ≡ made.version_to_name n source manifest.now }
{
    match source {
        Some(id) => source_version(id, manifest),
        None => {
            if manifest.core.initialized {
                number_after(n)
            } else {
                Err(SlateDBError::InvalidDBState(StateCause::NotInitialised))
            }
        }
    }
}

// When a checkpoint expires, counted from a moment.
fn expiry(now: Millis, lifetime: Option<u64>) -> Option<Millis>
    ensures { result ≡ made.expiry now lifetime }
{
    match lifetime {
        None => None,
        Some(lifetime) => Some(now.saturating_add_unsigned(lifetime)),
    }
}

// A checkpoint that is made at a moment.
fn new_checkpoint(
    alloc: Global,
    id: CheckpointId,
    options: &CheckpointOptions,
    now: Millis,
    version: u64,
) -> Result<Checkpoint, OutOfMemory>
    ensures { IfOk result (λ c. c ≡ made.new_checkpoint id options.now now version) }
{
    Ok(Checkpoint {
        id,
        manifest_id: version,
        expire_time: expiry(now, options.lifetime),
        create_time: now,
        name: Plain::clone(&options.name, alloc)?,
    })
}

// Equal checkpoints, without those that have the id.
fn without(
    alloc: Global,
    checkpoints: &[Checkpoint],
    id: &CheckpointId,
) -> Result<Listed<Checkpoint>, OutOfMemory>
    ensures { IfOk result (λ kept. kept ≡ made.without_checkpoint id.now checkpoints.now) }
{
    let mut kept = Listed::new(alloc);
    for checkpoint in checkpoints {
        if !checkpoint.id.is(id) {
            kept.push(checkpoint.clone(alloc)?)?;
        }
    }
    Ok(kept)
}

// An equal checkpoint, with another expiry where it has the id.
fn expiring(
    alloc: Global,
    checkpoint: &Checkpoint,
    id: &CheckpointId,
    expire_time: Option<Millis>,
) -> Result<Checkpoint, OutOfMemory>
    ensures { IfOk result (λ c. c ≡ made.expiring id.now expire_time checkpoint.now) }
{
    let mut copied = checkpoint.clone(alloc)?;
    if checkpoint.id.is(id) {
        copied.expire_time = expire_time;
    }
    Ok(copied)
}

// Equal checkpoints, of which those that have the id expire then.
fn all_expiring(
    alloc: Global,
    checkpoints: &[Checkpoint],
    id: &CheckpointId,
    expire_time: Option<Millis>,
) -> Result<Listed<Checkpoint>, OutOfMemory>
    ensures { IfOk result (λ kept. kept ≡ map (made.expiring id.now expire_time) checkpoints.now) }
{
    let mut kept = Listed::new(alloc);
    for checkpoint in checkpoints {
        kept.push(expiring(alloc, checkpoint, id, expire_time)?)?;
    }
    Ok(kept)
}

// An equal manifest, with these checkpoints and one more, the last.
fn with_last(
    alloc: Global,
    checkpoints: Listed<Checkpoint>,
    last: Checkpoint,
    manifest: &Manifest,
) -> Result<Manifest, OutOfMemory>
    ensures { IfOk result (λ m. m ≡ made.with_checkpoints (checkpoints ++ last ∷ []) manifest.now) }
{
    let mut all = checkpoints;
    match all.push(last) {
        Ok(()) => with_checkpoints(alloc, all, manifest),
        Err(e) => {
            drop(all);
            Err(e)
        }
    }
}

// An equal manifest, with one checkpoint more, the last.
fn with_one_more(
    alloc: Global,
    last: Checkpoint,
    manifest: &Manifest,
) -> Result<Manifest, OutOfMemory>
    ensures { IfOk result (λ m. m ≡ made.with_checkpoints (manifest.now.core.checkpoints ++ last ∷ []) manifest.now) }
{
    match manifest.clone(alloc) {
        Ok(copied) => {
            let mut new = copied;
            match new.core.checkpoints.push(last) {
                Ok(()) => Ok(new),
                Err(e) => {
                    drop(new);
                    Err(e)
                }
            }
        }
        Err(e) => {
            drop(last);
            Err(e)
        }
    }
}

// An equal manifest, without the checkpoint `old`, and with another one, the last.
fn with_another(
    alloc: Global,
    old: &CheckpointId,
    last: Checkpoint,
    manifest: &Manifest,
) -> Result<Manifest, OutOfMemory>
    ensures { IfOk result (λ m. m ≡ made.with_checkpoints
        (made.without_checkpoint old.now manifest.now.core.checkpoints ++ last ∷ []) manifest.now) }
{
    match without(alloc, manifest.core.checkpoints.as_slice(), old) {
        Ok(kept) => with_last(alloc, kept, last, manifest),
        Err(e) => {
            drop(last);
            Err(e)
        }
    }
}

// Whether a checkpoint has the id.
fn has(id: &CheckpointId, manifest: &Manifest) -> bool
    ensures { result ≡ made.has_checkpoint id.now manifest.now }
{
    find_checkpoint(manifest.core.checkpoints.as_slice(), id).is_some()
}

/// What a write of a checkpoint makes of version `n`: nothing where the id is there, and else the checkpoint comes last.
/// Refused with `CheckpointMissing` where the source isn't there, and with `InvalidDBState` where there is no source and the
/// database isn't initialised.
pub fn write_checkpoint(
    alloc: Global,
    id: CheckpointId,
    options: &CheckpointOptions,
    now: Millis,
    n: u64,
    manifest: &Manifest,
) -> Result<Option<Manifest>, SlateDBError>
    ensures { Gives result (made.written id options.now now n manifest.now) }
{
    if has(&id, manifest) {
        return Ok(None);
    }
    let version = version_to_name(n, options.source, manifest)?;
    let last = new_checkpoint(alloc, id, options, now, version)?;
    Ok(Some(with_one_more(alloc, last, manifest)?))
}

/// The same, without the checkpoint `old`, which may be absent, and which may be the source.
pub fn replace_checkpoint(
    alloc: Global,
    old: &CheckpointId,
    id: CheckpointId,
    options: &CheckpointOptions,
    now: Millis,
    n: u64,
    manifest: &Manifest,
) -> Result<Option<Manifest>, SlateDBError>
    ensures { Gives result (made.replaced old.now id options.now now n manifest.now) }
{
    if has(&id, manifest) {
        return Ok(None);
    }
    let version = version_to_name(n, options.source, manifest)?;
    let last = new_checkpoint(alloc, id, options, now, version)?;
    Ok(Some(with_another(alloc, old, last, manifest)?))
}

/// What the refresh of a checkpoint makes of a manifest: it expires that long after the moment, or never. Refused with
/// `CheckpointMissing` where it isn't there.
pub fn refresh_checkpoint(
    alloc: Global,
    id: CheckpointId,
    lifetime: Option<u64>,
    now: Millis,
    manifest: &Manifest,
) -> Result<Option<Manifest>, SlateDBError>
    ensures { Gives result (made.refreshed id lifetime now manifest.now) }
{
    if !has(&id, manifest) {
        return Err(SlateDBError::CheckpointMissing(id));
    }
    let expire_time = expiry(now, lifetime);
    let kept = all_expiring(
        alloc,
        manifest.core.checkpoints.as_slice(),
        &id,
        expire_time,
    )?;
    Ok(Some(with_checkpoints(alloc, kept, manifest)?))
}

/// What the deletion of a checkpoint makes of a manifest: nothing where it isn't there.
pub fn delete_checkpoint(
    alloc: Global,
    id: &CheckpointId,
    manifest: &Manifest,
) -> Result<Option<Manifest>, SlateDBError>
    ensures { Gives result (made.deleted id.now manifest.now) }
{
    if !has(id, manifest) {
        return Ok(None);
    }
    let kept = without(alloc, manifest.core.checkpoints.as_slice(), id)?;
    Ok(Some(with_checkpoints(alloc, kept, manifest)?))
}

// Whether a checkpoint is expired at a moment.
fn is_expired(now: Millis, checkpoint: &Checkpoint) -> bool
    ensures { result ≡ made.is_expired now checkpoint.now }
{
    match checkpoint.expire_time {
        None => false,
        Some(expire_time) => expire_time <= now,
    }
}

// Whether one of the checkpoints is expired at a moment.
fn has_expired(now: Millis, checkpoints: &[Checkpoint]) -> bool
    ensures { result ≡ list_any (made.is_expired now) checkpoints.now }
{
    for checkpoint in checkpoints {
        if is_expired(now, checkpoint) {
            return true;
        }
    }
    false
}

// Equal checkpoints, without those that are expired at a moment.
fn without_expired(
    alloc: Global,
    now: Millis,
    checkpoints: &[Checkpoint],
) -> Result<Listed<Checkpoint>, OutOfMemory>
    ensures { IfOk result (λ kept. kept ≡ filter (λ c. not (made.is_expired now c)) checkpoints.now) }
{
    let mut kept = Listed::new(alloc);
    for checkpoint in checkpoints {
        if !is_expired(now, checkpoint) {
            kept.push(checkpoint.clone(alloc)?)?;
        }
    }
    Ok(kept)
}

// Whether one of the manifest's checkpoints is expired at a moment.
fn is_to_expire(now: Millis, manifest: &Manifest) -> bool
    ensures { result ≡ list_any (made.is_expired now) manifest.now.core.checkpoints }
{
    has_expired(now, manifest.core.checkpoints.as_slice())
}

// An equal manifest, without the checkpoints that are expired at a moment.
fn unexpired(alloc: Global, now: Millis, manifest: &Manifest) -> Result<Manifest, OutOfMemory>
    ensures { IfOk result (λ m. m ≡ made.with_checkpoints
        (filter (λ c. not (made.is_expired now c)) manifest.now.core.checkpoints) manifest.now) }
{
    let kept = without_expired(alloc, now, manifest.core.checkpoints.as_slice())?;
    with_checkpoints(alloc, kept, manifest)
}

/// What a pass makes of a manifest at a moment: its expired checkpoints go, and nothing is made where it has none.
pub fn expire_checkpoints(
    alloc: Global,
    now: Millis,
    manifest: &Manifest,
) -> Result<Option<Manifest>, SlateDBError>
    ensures { Gives result (made.unexpired now manifest.now) }
{
    if !is_to_expire(now, manifest) {
        return Ok(None);
    }
    Ok(Some(unexpired(alloc, now, manifest)?))
}
