//! Where the calls of a compactor on its state begin.
ghost use Rattle.std.specs.Prelude.{◌≡◌, true};
ghost use Rattle.slate_state_calls.specs.StateSteps.{start_phase, state_due};

use crate::compactor::Compactor;
use crate::state_phase::{ManifestStep, RecordStep, StatePhase};
use slate_ids::{CheckpointId, Ulid};
use slate_state_record_updates::RecordChange;
use slate_state_updates::ManifestChange;
use slate_txn_changes::Changing;

/// A write of a compactor's trees.
#[derive(Clone, Copy, Debug)]
pub struct TreesWrite {
    /// The checkpoint that is committed before them.
    pub checkpoint: CheckpointId,
    /// Whether the record is written after them.
    pub whole: bool,
}

/// A call on the state of a compactor.
#[derive(Clone, Copy, Debug)]
pub enum StateStart {
    /// Follows the record and the manifest.
    Refresh,
    /// Schedules this compaction.
    Schedule(Ulid),
    /// Writes the trees, and the record after them where the whole state is written.
    WriteTrees(TreesWrite),
    /// Writes the record alone.
    WriteRecord,
}

impl StateStart {
    /// The phase in which the call begins, also after a conflict. Takes no memory.
    pub fn phase(&self, compactor: &Compactor) -> StatePhase
        ensures phase { result ≡ start_phase self.now compactor.now }
        ensures due { state_due result ≡ true }
    {
        let own = Some(compactor.epoch);
        match self {
            StateStart::Refresh => StatePhase::OnRecord(RecordStep::Follow, Changing::start(None)),
            StateStart::Schedule(id) => {
                let change = RecordChange::Schedule {
                    compactor: own,
                    id: *id,
                };
                StatePhase::OnRecord(RecordStep::Schedule, Changing::start(Some(change)))
            }
            StateStart::WriteTrees(write) => {
                let change = ManifestChange::KeepTrees {
                    compactor: own,
                    checkpoint: write.checkpoint,
                };
                StatePhase::OnManifest(ManifestStep::Keep(*write), Changing::start(Some(change)))
            }
            StateStart::WriteRecord => {
                StatePhase::OnRecord(RecordStep::Fetch(None), Changing::start(None))
            }
        }
    }
}
