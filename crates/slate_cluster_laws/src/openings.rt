//! What stands as a run begins, in the words of its databases.
ghost use Rattle.std.specs.Prelude.{◌≡◌, List, option_map};
ghost use Rattle.slate_ids.specs.FinePath.{IsFine};
ghost use Rattle.slate_ids.specs.declared.object_path.ObjectPath.{ObjectPath};
ghost use Rattle.slate_store.specs.Store.{object_at};
ghost use Rattle.slate_script_events.specs.declared.db_spec.DbSpec.{DbSpec};
ghost use Rattle.slate_cluster_protocol.specs.Lawful.{IsAccepted};
ghost use Rattle.slate_cluster_protocol.specs.OpeningStore.{GoByPath, brought, put_value};
ghost use Rattle.slate_cluster_protocol.specs.Specs.{opening_world};

/// An object stands at a path exactly where it is that of a database's first manifest, of its first record, where it has one, or of
/// a table that is present there: with the bytes of these, written at the moment that the database says. Tags go by path.
pub fn opening_stands()
    ensures objects { (specs : List DbSpec) (path : ObjectPath) → IsAccepted specs → IsFine path
        → option_map put_value (object_at path (opening_world specs).store) ≡ brought specs path }
    ensures tags { (specs : List DbSpec) → IsAccepted specs → GoByPath (opening_world specs).store.objects }
{}
