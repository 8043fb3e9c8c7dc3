//! Whether a manifest is its own normal form.
ghost use Rattle.std.specs.Prelude.{◌≡◌};
ghost use Rattle.std.specs.List.{list_all};
ghost use Rattle.slate_layout_encodable.specs.Normal as normal;

use slate_ids::Millis;
use slate_model::{Checkpoint, LsmTreeState, Manifest, ManifestCore, Segment};

// Whether a moment is a whole second, or before the first one.
fn is_whole(moment: Millis) -> bool
    ensures { result ≡ normal.is_whole moment }
{
    moment < 0 || moment as u64 % 1000 == 0
}

// The same of an expiry; never is one.
fn is_whole_expiry(expiry: Option<Millis>) -> bool
    ensures { result ≡ normal.is_whole_expiry expiry }
{
    match expiry {
        Some(moment) => is_whole(moment),
        None => true,
    }
}

// Whether a checkpoint's moments are.
fn is_normal_checkpoint(checkpoint: &Checkpoint) -> bool
    ensures { result ≡ normal.is_normal_checkpoint checkpoint.now }
{
    is_whole_expiry(checkpoint.expire_time) && is_whole(checkpoint.create_time)
}

fn are_normal_checkpoints(checkpoints: &[Checkpoint]) -> bool
    ensures { result ≡ list_all normal.is_normal_checkpoint checkpoints.now }
{
    checkpoints.iter().all(|c| is_normal_checkpoint(c))
}

// Whether a tree has no marker of tables.
fn is_normal_tree(tree: &LsmTreeState) -> bool
    ensures { result ≡ normal.is_normal_tree tree.now }
{
    tree.last_compacted_l0_sst_id.is_none()
}

fn are_normal_segments(segments: &[Segment]) -> bool
    ensures { result ≡ list_all (λ s. normal.is_normal_tree s.tree) segments.now }
{
    segments.iter().all(|s| is_normal_tree(s.tree()))
}

fn is_normal_core(core: &ManifestCore) -> bool
    ensures { result ≡ normal.is_normal_core core.now }
{
    is_normal_tree(&core.tree)
        && are_normal_segments(core.segments())
        && core.wal_object_store_uri.is_none()
        && are_normal_checkpoints(core.checkpoints.as_slice())
}

/// Whether a manifest is its own normal form: the moments of its checkpoints are whole seconds, or before the first one, and it has no
/// markers of tables and no store of the write-ahead log. Takes no memory.
pub fn is_normal(manifest: &Manifest) -> bool
    ensures { result ≡ normal.is_normal manifest.now }
{
    is_normal_core(&manifest.core)
}
