//! Presence of tables: what uploads and committed versions name was put.
ghost use Rattle.std.specs.Prelude.{◌≡◌, ℕ, ◌≤◌, List, Some};
ghost use Rattle.slate_model.specs.Watermark.{watermark};
ghost use Rattle.slate_txn_log.specs.declared.log_kind.LogKind.TheVariants as logs;
ghost use Rattle.slate_script_events.specs.declared.db_spec.DbSpec.{DbSpec};
ghost use Rattle.slate_script_events.specs.declared.event.Event.{Event};
ghost use Rattle.slate_cluster_protocol.specs.Lawful.{IsAccepted, AreGood, chains_at_end, gone_after, world_at_end};
ghost use Rattle.slate_cluster_protocol.specs.World.{HasDb, party_of};
ghost use Rattle.slate_cluster_protocol.specs.Reach.{HasOwn};
ghost use Rattle.slate_cluster_protocol.specs.declared.party.Party.{Party};
ghost use Rattle.slate_cluster_table_laws.specs.Links.{EachValue};
ghost use Rattle.slate_cluster_table_laws.specs.Presence.{EachOutput, UploadsPut, WasPut};

/// Of each committed manifest the watermark is at most its floor.
pub fn watermarks_stay_below()
    ensures { (specs : List DbSpec) (events : List Event) (db : List ℕ)
        → IsAccepted specs → HasDb (world_at_end specs events) db
        → EachValue (λ m. watermark m.core ≤ m.core.floor) (chains_at_end specs events logs.Manifest db) }
{}

/// Each table that a party uploaded was put at the party's database, and each output of each compaction of a committed record at the
/// record's: it stands, or a delete took it away up to now. And so was each table of a committed manifest's trees that none of its entries lists.
pub fn tables_were_put()
    ensures uploads { (specs : List DbSpec) (events : List Event) (n : ℕ) (p : Party)
        → IsAccepted specs → AreGood specs events → party_of n (world_at_end specs events).parties ≡ Some p
        → UploadsPut (gone_after specs events) (world_at_end specs events).store p.facts }
    ensures outputs { (specs : List DbSpec) (events : List Event) (db : List ℕ)
        → IsAccepted specs → AreGood specs events → HasDb (world_at_end specs events) db
        → EachValue (λ r. EachOutput (WasPut (gone_after specs events) (world_at_end specs events).store db) r.entries) (chains_at_end specs events logs.Compactions db) }
    ensures tables { (specs : List DbSpec) (events : List Event) (db : List ℕ)
        → IsAccepted specs → AreGood specs events → HasDb (world_at_end specs events) db
        → EachValue (λ m. (id : ℕ × ℕ) → HasOwn m id → WasPut (gone_after specs events) (world_at_end specs events).store db id) (chains_at_end specs events logs.Manifest db) }
{}
