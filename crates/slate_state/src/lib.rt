//! The state of a database: its manifests, its records of compactions and the state of its compactor, with their stores, their holders,
//! their rules and their merges. All of it stands in the crates that are named here, and is passed on.
#![tactic(auto)]

pub use slate_state_compactor::LocalState;
pub use slate_state_holders::{
    CheckpointMachine, CreateCompactionsMachine, CreateDbMachine, DeleteCheckpointMachine,
    FenceableCompactions, FenceableManifest, FencedCheckpointMachine,
    FencedDeleteCheckpointMachine, FencedRefreshCompactionsMachine, FencedRefreshManifestMachine,
    FencedUpdateCompactionsMachine, FencedUpdateManifestMachine, InitCompactionsMachine,
    InitManifestMachine, LoadCompactionsMachine, LoadManifestMachine, RefreshCompactionsMachine,
    RefreshManifestMachine, StoredCompactions, StoredManifest, TryLoadCompactionsMachine,
    TryLoadManifestMachine, UpdateCompactionsMachine, UpdateManifestMachine,
    checkpoint_stands_in_new, checkpoint_stands_in_old,
};
pub use slate_state_logs::{DbLog, ManifestNames, Manifests, NoNames, Records, records_are_plain};
pub use slate_state_merges::{
    LocalTrees, TreeMerge, merge_remote_manifest, merge_segments_from_compactor,
    merge_segments_from_writer, merge_writer_and_compactor,
};
pub use slate_state_reader::{CompactorStateReader, CompactorStateView, ReadViewMachine};
pub use slate_state_record_updates::{CompactionsRules, RecordEpochs, claim, report, submit};
pub use slate_state_stores::{
    AdvanceBoundaryMachine, AdvanceCompactionsBoundaryMachine, CompactionsStore,
    DeleteCompactionsMachine, DeleteCompactionsUncheckedMachine, DeleteManifestMachine,
    DeleteUncheckedMachine, LatestCompactionsMachine, LatestManifestMachine,
    ListCompactionsMachine, ListManifestsMachine, ManifestMap, ManifestStore, NumberQueue,
    ReadCompactionsMachine, ReadManifestMachine, ReferencedManifestsMachine, ReferencedPhase,
    TryLatestCompactionsMachine, TryLatestManifestMachine, TryReadCompactionsMachine,
    TryReadManifestMachine,
};
pub use slate_state_updates::{ManifestEpochs, ManifestRules, l0_ulid_cutoff};
pub use slate_state_writer::{CompactorStateMachine, CompactorStateWriter, OpenStateMachine};
pub use slate_txn::DirtyObject;
