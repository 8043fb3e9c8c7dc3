//! Checkpoints: versions that a manifest keeps from being collected.
ghost use Rattle.std.specs.Prelude.{◌≡◌, IfOk};
ghost use Rattle.slate_model.specs.NewCheckpoints.{no_options};

use slate_ids::{CheckpointId, Millis, OutOfMemory, Text};
use slate_model_tables::Plain;
use std::alloc::Global;

/// A checkpoint: while it stands in the greatest manifest, the version that it names is needed.
#[derive(Debug, Drop)]
pub struct Checkpoint {
    /// Which checkpoint.
    pub id: CheckpointId,
    /// The number of the version that it names.
    pub manifest_id: u64,
    /// When it expires, in milliseconds since the Unix epoch; never, where there is none.
    pub expire_time: Option<Millis>,
    /// When it was made, in milliseconds since the Unix epoch.
    pub create_time: Millis,
    /// What it is called.
    pub name: Option<Text>,
}

impl Checkpoint {
    /// An equal value. It shares the keys.
    pub fn clone(&self, alloc: Global) -> Result<Checkpoint, OutOfMemory>
        ensures { IfOk result (λ copied. copied ≡ self.now) }
    {
        Ok(Checkpoint {
            id: self.id,
            manifest_id: self.manifest_id,
            expire_time: self.expire_time,
            create_time: self.create_time,
            name: Plain::clone(&self.name, alloc)?,
        })
    }
}

impl Plain for Checkpoint {
    fn clone(&self, alloc: Global) -> Result<Checkpoint, OutOfMemory> {
        Checkpoint::clone(self, alloc)
    }

    fn is(&self, other: &Checkpoint) -> bool {
        Plain::is(&self.id, &other.id)
            && self.manifest_id == other.manifest_id
            && self.expire_time == other.expire_time
            && self.create_time == other.create_time
            && self.name.is(&other.name)
    }
}

/// What a new checkpoint is to be.
#[derive(Debug, Drop)]
pub struct CheckpointOptions {
    /// After how many milliseconds it expires; never, where there is none.
    pub lifetime: Option<u64>,
    /// The checkpoint whose version it is to name; the version that its commit makes, where there is none.
    pub source: Option<CheckpointId>,
    /// What it is called.
    pub name: Option<Text>,
}

/// No lifetime, no source, no name. Takes no memory.
impl Default for CheckpointOptions {
    ghost is_default = { λ options. options ≡ no_options };

    fn default() -> CheckpointOptions {
        CheckpointOptions {
            lifetime: None,
            source: None,
            name: None,
        }
    }
}

/// The checkpoint that was made.
#[derive(Clone, Copy, Debug, Drop)]
pub struct CheckpointCreateResult {
    /// Which checkpoint.
    pub id: CheckpointId,
    /// The number of the version that it names.
    pub manifest_id: u64,
}
