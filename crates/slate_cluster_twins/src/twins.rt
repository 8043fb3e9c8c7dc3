//! The last turn of a plain call is the row of the call in a run.
ghost use Rattle.std.specs.Prelude.{ℕ, ℤ, Bool, Result};
ghost use Rattle.slate_txn_changes.specs.declared.log_work.LogEnd.{LogEnd};
ghost use Rattle.slate_state_calls.specs.declared.compactor.Compactor.{Compactor};
ghost use Rattle.slate_state_calls.specs.declared.state_start.StateStart.{StateStart};
ghost use Rattle.slate_state_writer.specs.Writer.{Writer};
ghost use Rattle.slate_script_events.specs.declared.call.Call.{Call};
ghost use Rattle.slate_script_events.specs.declared.filter_word.FilterWord.{FilterWord};
ghost use Rattle.slate_ids.specs.declared.error.SlateDBError.{SlateDBError};
ghost use Rattle.slate_ids.specs.declared.gc_message.GcMessage.{GcMessage};
ghost use Rattle.slate_model.specs.declared.manifest.Manifest.{Manifest};
ghost use Rattle.slate_model_records.specs.Records.{Record};
ghost use Rattle.slate_gc.specs.PassTurns.{Turn};
ghost use Rattle.slate_gc_passes.specs.declared.pass_counts.PassCounts.{PassCounts};
ghost use Rattle.slate_cluster_protocol.specs.declared.party.Facts.{Facts};
ghost use Rattle.slate_cluster_twins.specs.Twins.{ChangesManifest, ChangesRecord, ManifestChangeIsRow, OpenIsRow, PassIsRow, RecordChangeIsRow, StateCallIsRow};
ghost use Rattle.slate_state_record_updates.specs.declared.record_change.RecordChange.{RecordChange};
ghost use Rattle.slate_state_updates.specs.declared.manifest_change.ManifestChange.{ManifestChange};
ghost use Rattle.slate_store.specs.StoreCalls.{Told};

/// What a plain call does in its last turn is its row in a run. A plain call that came to an end has a last turn: the later ones of the store
/// calls that it made, from where the call begins, also after a conflict, to its end, with no conflict in between (`LastTurn`). With the
/// same answers a call of a run makes the same store calls and has the same end (`IsRow`). A compactor's open (`opens`) and its calls on its
/// state (`states`) leave the party with what the plain compactor holds; a change of the latest manifest (`manifests`) or record (`records`)
/// and a pass (`passes`) end with what the plain call answers.
pub fn calls_are_rows()
    ensures opens { (facts : Facts) (moment : ℤ) (tries : ℕ) (old new : Told) (result : Result Writer SlateDBError)
        → OpenIsRow facts moment tries old new result }
    ensures states { (facts : Facts) (compactor held : Compactor) (start : StateStart) (moment : ℤ) (tries : ℕ) (old new : Told)
        (result : Result (Unit {0}) SlateDBError)
        → StateCallIsRow facts compactor held start moment tries old new result }
    ensures manifests { (facts : Facts) (call : Call) (change : ManifestChange) (moment : ℤ) (tries : ℕ) (old new : Told)
        (result : Result (LogEnd Manifest) SlateDBError)
        → ChangesManifest facts call change → ManifestChangeIsRow facts call change moment tries old new result }
    ensures records { (facts : Facts) (call : Call) (change : RecordChange) (moment : ℤ) (tries : ℕ) (old new : Told)
        (result : Result (LogEnd Record) SlateDBError)
        → ChangesRecord facts call change → RecordChangeIsRow facts call change moment tries old new result }
    ensures passes { (facts : Facts) (pass : GcMessage) (min_age : ℕ) (dry_run : Bool) (filter : FilterWord) (moment : ℤ) (tries : ℕ)
        (old new : Told) (to : Turn) (result : Result PassCounts SlateDBError)
        → PassIsRow facts pass min_age dry_run filter moment tries old new to result }
{}
