//! What a call is at: the phrase or the machine under way.

use crate::uploads::Upload;
use slate_gc_passes::{GcPhase, PassSettings};
use slate_ids::{ByteList, DbPath};
use slate_model::{Compactions, Manifest};
use slate_script_events::FilterWord;
use slate_state_calls::{OpenPhase, StatePhase};
use slate_state_record_updates::RecordChange;
use slate_state_updates::ManifestChange;
use slate_txn_changes::Changing;

/// What is under way, where it stands, with the database whose objects it speaks of.
#[derive(Drop)]
pub enum Work {
    /// A change of the latest manifest.
    Manifests(DbPath, Changing<Option<ManifestChange>, Manifest>),
    /// A change of the latest record of compactions.
    Records(DbPath, Changing<Option<RecordChange>, Compactions>),
    /// The object of a new table is put, with these bytes.
    PutTable(DbPath, Upload, ByteList),
    /// A pass of the garbage collector, with its settings and its filter.
    Pass(DbPath, PassSettings, FilterWord, GcPhase),
    /// A compactor opens the database.
    Opening(DbPath, OpenPhase),
    /// A call of a compactor on its state.
    Compacting(DbPath, StatePhase),
}
