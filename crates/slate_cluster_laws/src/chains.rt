//! Chains: what one event changes of them, and what a list tells.
ghost use Rattle.std.specs.Prelude.{◌≡◌, ℕ, ◌<◌, ℤ, List, Some, None, true, false};
ghost use Rattle.slate_ids.specs.FinePath.{IsFine};
ghost use Rattle.slate_ids.specs.Ids.{is_db_path};
ghost use Rattle.slate_ids.specs.declared.object_path.ObjectPath.{ObjectPath};
ghost use Rattle.slate_store.specs.Store.{Store, stands_at, effect};
ghost use Rattle.slate_store.specs.declared.mark.Mark.{Mark};
ghost use Rattle.slate_store.specs.declared.store_call.StoreCall.TheVariants.{PutNew, Put};
ghost use Rattle.slate_txn_log.specs.declared.log_kind.LogKind.{LogKind};
ghost use Rattle.slate_script_events.specs.declared.db_spec.DbSpec.{DbSpec};
ghost use Rattle.slate_script_events.specs.declared.event.Event.{Event};
ghost use Rattle.slate_cluster_protocol.specs.Chains.{top};
ghost use Rattle.slate_cluster_protocol.specs.Lawful.{IsAccepted, chains_at_end, world_at_end};
ghost use Rattle.slate_cluster_protocol.specs.Owners.{owner_of, is_log, LogStays};
ghost use Rattle.slate_cluster_protocol.specs.World.{HasDb};
ghost use Rattle.slate_cluster_protocol.specs.declared.party.Party.{Party};
ghost use Rattle.slate_cluster_protocol.specs.declared.party.Task.{Task};
ghost use Rattle.slate_cluster_laws.specs.InCalls.{InCall};
ghost use Rattle.slate_cluster_laws.specs.LogsAtEnd.{greatest_listed, ChangedBy, WrittenPuts};

/// An event leaves the chain of a log, or puts one version on top, by the party of the event.
pub fn changed()
    ensures { (specs : List DbSpec) (events : List Event) (event : Event) (k : LogKind) (db : List ℕ)
        → IsAccepted specs → HasDb (world_at_end specs events) db
        → ChangedBy specs events event k db }
{}

/// Where a party is about to commit a version, and the step that puts it writes, whatever the mark: either its number is above the boundary of
/// the log and the one after the greatest committed one, and the chain has what was put on top, by this party; or its number is at or below the
/// boundary, and the chain stays as it was.
pub fn written_puts()
    ensures { (specs : List DbSpec) (events : List Event) (n : ℕ) (p : Party) (task : Task)
        → IsAccepted specs → InCall specs events n p task (WrittenPuts specs events n task) }
{}

/// The greatest number that a list of a log gives is the greatest committed one; where none is committed, it gives none.
pub fn list_top()
    ensures some { (specs : List DbSpec) (events : List Event) (k : LogKind) (db : List ℕ)
        → IsAccepted specs → HasDb (world_at_end specs events) db
        → 0 < top (chains_at_end specs events k db)
        → greatest_listed specs events k db ≡ Some (top (chains_at_end specs events k db)) }
    ensures none { (specs : List DbSpec) (events : List Event) (k : LogKind) (db : List ℕ)
        → IsAccepted specs → HasDb (world_at_end specs events) db
        → top (chains_at_end specs events k db) ≡ 0
        → greatest_listed specs events k db ≡ None }
{}

/// A put at a path that is taken changes nothing.
pub fn taken_path()
    ensures { (path : ObjectPath) (bytes : List ℕ) (moment : ℤ) (mark : Mark) (store : Store)
        → stands_at path store ≡ true → (effect mark (PutNew path bytes) moment store).store ≡ store }
{}

/// A plain put at a path that no log has, as that of a table is, leaves the versions and the boundary of each log as they are.
pub fn put_elsewhere()
    ensures { (k : LogKind) (db : List ℕ) (path : ObjectPath) (bytes : List ℕ) (moment : ℤ) (mark : Mark) (store : Store)
        → is_db_path db ≡ true → IsFine path → is_log (owner_of path) ≡ false
        → LogStays k db store (effect mark (Put path bytes) moment store).store }
{}
