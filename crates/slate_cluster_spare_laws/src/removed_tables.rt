//! Tables that passes remove.
ghost use Rattle.std.specs.Prelude.{◌≡◌, ℕ, ◌≤◌, List, ◌∷◌, ◌++◌, Some};
ghost use Rattle.slate_ids.specs.declared.gc_message.GcMessage.TheVariants.{Compacted};
ghost use Rattle.slate_ids.specs.declared.object_path.ObjectPath.{ObjectPath};
ghost use Rattle.slate_ids.specs.declared.object_path.ObjectPath.TheVariants.{Table};
ghost use Rattle.slate_gc_passes.specs.declared.pass_phase.PassPhase.{PassPhase};
ghost use Rattle.slate_model.specs.declared.manifest.Manifest.{Manifest as AnyManifest};
ghost use Rattle.slate_model_records.specs.Records.{Record};
ghost use Rattle.slate_script_events.specs.declared.db_spec.DbSpec.{DbSpec};
ghost use Rattle.slate_script_events.specs.declared.event.Event.{Event};
ghost use Rattle.slate_txn_log.specs.declared.log_kind.LogKind.TheVariants as logs;
ghost use Rattle.slate_cluster_protocol.specs.Chains.{Link, link_at, top};
ghost use Rattle.slate_cluster_protocol.specs.Holding.{Each, due_in};
ghost use Rattle.slate_cluster_protocol.specs.Lawful.{AreGood, IsAccepted, chains_at_end, gone_after, world_at_end};
ghost use Rattle.slate_cluster_protocol.specs.Logs.{Author, Collects, phrase_of};
ghost use Rattle.slate_cluster_protocol.specs.Reach.{HasOwn};
ghost use Rattle.slate_cluster_protocol.specs.Spares.{IsSpareTable};
ghost use Rattle.slate_cluster_protocol.specs.World.{HasDb, party_of};
ghost use Rattle.slate_cluster_protocol.specs.declared.party.Party.{Party};
ghost use Rattle.slate_cluster_protocol.specs.declared.party.State.TheVariants.{Busy};
ghost use Rattle.slate_cluster_protocol.specs.declared.party.Task.{Task};
ghost use Rattle.slate_cluster_table_laws.specs.Presence.{EachOutput};
ghost use Rattle.slate_cluster_spare_laws.specs.SpareObjects.{IsSpareObject};

/// A table that was removed, and one that a pass over tables is about to delete, is from before the floor of its database's greatest manifest and
/// from before the compactions of its greatest record, and no needed version has it.
pub fn removed_tables_are_spare()
    ensures removed { (specs : List DbSpec) (events : List Event) (front back : List ObjectPath) (db : List ℕ) (id : ℕ × ℕ)
        → IsAccepted specs → AreGood specs events → gone_after specs events ≡ front ++ Table db id ∷ back
        → IsSpareTable (chains_at_end specs events) db id }
    ensures due { (specs : List DbSpec) (events : List Event) (n : ℕ) (p : Party) (task : Task) (db : List ℕ) (phase : PassPhase)
        → IsAccepted specs → party_of n (world_at_end specs events).parties ≡ Some p → p.state ≡ Busy task
        → phrase_of task.work ≡ Collects db Compacted phase
        → Each (IsSpareObject (chains_at_end specs events) db) (due_in phase) }
{}

/// A table that was removed is published no more: no manifest from the greatest of that moment on has it in its own trees, and no record from the
/// greatest of that moment on has it among the outputs of a compaction.
pub fn tables_stay_unpublished()
    ensures manifests { (specs : List DbSpec) (front back : List Event) (before after : List ObjectPath) (db : List ℕ) (id : ℕ × ℕ)
        → IsAccepted specs → AreGood specs (front ++ back) → HasDb (world_at_end specs (front ++ back)) db
        → gone_after specs front ≡ before ++ Table db id ∷ after
        → (number : ℕ) (link : Link AnyManifest Author) → top (chains_at_end specs front logs.Manifest db) ≤ number
        → link_at number (chains_at_end specs (front ++ back) logs.Manifest db) ≡ Some link → HasOwn link.value id → ⊥ }
    ensures records { (specs : List DbSpec) (front back : List Event) (before after : List ObjectPath) (db : List ℕ) (id : ℕ × ℕ)
        → IsAccepted specs → AreGood specs (front ++ back) → HasDb (world_at_end specs (front ++ back)) db
        → gone_after specs front ≡ before ++ Table db id ∷ after
        → (number : ℕ) (link : Link Record Author) → top (chains_at_end specs front logs.Compactions db) ≤ number
        → link_at number (chains_at_end specs (front ++ back) logs.Compactions db) ≡ Some link
        → EachOutput (λ other. other ≡ id → ⊥) link.value.entries }
{}
