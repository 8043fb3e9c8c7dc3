//! Tables that nobody needs, nor will.
ghost use Rattle.std.specs.Prelude.{◌≡◌, ℕ, ℤ, List, ◌++◌, true};
ghost use Rattle.slate_ids.specs.declared.object_path.ObjectPath.TheVariants.{Table};
ghost use Rattle.slate_model.specs.Watermark.{watermark};
ghost use Rattle.slate_model.specs.declared.manifest.Manifest.{Manifest as AnyManifest};
ghost use Rattle.slate_gc_picks.specs.TablePicks.{is_unused, used_tables};
ghost use Rattle.slate_script_events.specs.declared.db_spec.DbSpec.{DbSpec};
ghost use Rattle.slate_script_events.specs.declared.event.Event.{Event};
ghost use Rattle.slate_cluster_protocol.specs.Lawful.{AreGood, IsAccepted, chains_at_end, world_at_end};
ghost use Rattle.slate_cluster_protocol.specs.Logs.{chains_after};
ghost use Rattle.slate_cluster_protocol.specs.World.{HasDb};
ghost use Rattle.slate_cluster_protocol.specs.Spares.{IsSpareTable};
ghost use Rattle.slate_cluster_spare_laws.specs.TableReads.{HasRead};

/// A table from before the floor of its database's greatest manifest and from before the compactions of its greatest record, which no needed version
/// has of its own, stays so, whatever event comes, and whatever events: neither a flush nor a compactor's merge publishes it, neither floor
/// nor least fall, and no version of which nobody has need is needed again.
pub fn spare_tables_stay()
    ensures event { (specs : List DbSpec) (events : List Event) (event : Event) (db : List ℕ) (id : ℕ × ℕ)
        → IsAccepted specs → IsSpareTable (chains_at_end specs events) db id
        → IsSpareTable (chains_after (world_at_end specs events) event (chains_at_end specs events)) db id }
    ensures run { (specs : List DbSpec) (front back : List Event) (db : List ℕ) (id : ℕ × ℕ)
        → IsAccepted specs → AreGood specs (front ++ back) → IsSpareTable (chains_at_end specs front) db id
        → IsSpareTable (chains_at_end specs (front ++ back)) db id }
{}

/// What the rule of a pass over tables picks of what it read is spare: where it read a record by one moment, then listed the manifests when this one
/// was the greatest, and has got, by a third, the versions that this one's checkpoints name, a table is spare at that moment which is from before
/// the record's compactions and from before the manifest's watermark, and of which none of these versions has need.
pub fn table_picks_are_spare()
    ensures { (specs : List DbSpec) (front middle back : List Event) (db : List ℕ) (least n : ℕ) (versions : List (ℕ × AnyManifest))
        → IsAccepted specs → AreGood specs ((front ++ middle) ++ back) → HasDb (world_at_end specs ((front ++ middle) ++ back)) db
        → (reads : HasRead (chains_at_end specs front) (chains_at_end specs (front ++ middle)) (chains_at_end specs ((front ++ middle) ++ back)) db least n versions)
        → (min_age : ℕ) (now : ℤ) (id : ℕ × ℕ)
        → is_unused min_age now least (watermark reads.got.value.core) (used_tables versions) (Table db id) ≡ true
        → IsSpareTable (chains_at_end specs ((front ++ middle) ++ back)) db id }
{}
