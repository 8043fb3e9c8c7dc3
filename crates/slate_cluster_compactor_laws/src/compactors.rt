//! Compactors: their fences, what they hold, and how the records of their databases grow.
ghost use Rattle.std.specs.Prelude.{◌≡◌, ℕ, List, Some};
ghost use Rattle.slate_txn_log.specs.declared.log_kind.LogKind.TheVariants as logs;
ghost use Rattle.slate_script_events.specs.declared.db_spec.DbSpec.{DbSpec};
ghost use Rattle.slate_script_events.specs.declared.event.Event.{Event};
ghost use Rattle.slate_state_calls.specs.declared.compactor.Compactor.{Compactor};
ghost use Rattle.slate_cluster_protocol.specs.Holding.{EpochsStand};
ghost use Rattle.slate_cluster_protocol.specs.Lawful.{IsAccepted, chains_at_end, world_at_end};
ghost use Rattle.slate_cluster_protocol.specs.World.{HasDb, party_of};
ghost use Rattle.slate_cluster_protocol.specs.declared.party.Party.{Party};
ghost use Rattle.slate_cluster_chain_laws.specs.Raises.{HasRaised};
ghost use Rattle.slate_cluster_compactor_laws.specs.Fences.{OwnEpochs, PutByRaisers};
ghost use Rattle.slate_cluster_compactor_laws.specs.Growing.{RecordsGrow, TrimmedByHolders};
ghost use Rattle.slate_cluster_compactor_laws.specs.Pending.{HoldsPending};

/// The order of fences: the epoch that an open of a compactor has raised, and that of a compactor that a party holds, were raised by this party, and
/// the one held is below one raised in an open again; each is at most that of the greatest manifest, and where the record was given it, at most
/// that of the greatest record. One epoch of a database is raised once, so two parties that hold compactors of one epoch are one; and each
/// compactor's epoch with which a record was put was raised by the party that put it.
pub fn fences_in_order()
    ensures own { (specs : List DbSpec) (events : List Event) (n : ℕ) (p : Party)
        → IsAccepted specs → party_of n (world_at_end specs events).parties ≡ Some p
        → OwnEpochs (chains_at_end specs events) n p }
    ensures stand { (specs : List DbSpec) (events : List Event) (n : ℕ) (p : Party)
        → IsAccepted specs → party_of n (world_at_end specs events).parties ≡ Some p
        → EpochsStand (chains_at_end specs events) p }
    ensures once { (specs : List DbSpec) (events : List Event) (db : List ℕ) (n m epoch : ℕ)
        → IsAccepted specs → HasDb (world_at_end specs events) db
        → (one : HasRaised (chains_at_end specs events logs.Manifest db) n epoch) (other : HasRaised (chains_at_end specs events logs.Manifest db) m epoch)
        → (one.number ≡ other.number) × (n ≡ m) }
    ensures apart { (specs : List DbSpec) (events : List Event) (n m : ℕ) (p q : Party) (c d : Compactor)
        → IsAccepted specs → party_of n (world_at_end specs events).parties ≡ Some p → party_of m (world_at_end specs events).parties ≡ Some q
        → p.facts.db ≡ q.facts.db → p.facts.compactor ≡ Some c → q.facts.compactor ≡ Some d → c.epoch ≡ d.epoch → n ≡ m }
    ensures put { (specs : List DbSpec) (events : List Event) (db : List ℕ)
        → IsAccepted specs → HasDb (world_at_end specs events) db
        → PutByRaisers (chains_at_end specs events logs.Manifest db) (chains_at_end specs events logs.Compactions db) }
{}

/// What a compactor holds is in the record: while its epoch is the compactor epoch of its database's greatest manifest, each compaction that is
/// pending has an entry in the greatest record, and each that is Compacted in its local record is Compacted there; and each of its local
/// compactions obeys the rule on outputs.
pub fn pending_stands()
    ensures { (specs : List DbSpec) (events : List Event) (n : ℕ) (p : Party)
        → IsAccepted specs → party_of n (world_at_end specs events).parties ≡ Some p
        → HoldsPending (chains_at_end specs events) p }
{}

/// From a committed record of a database to any later one each compaction stays, and one that is Compacted stays so with its outputs, but
/// for those that a version between them took away, or ended: an open's reset takes what is over, a compactor's statuses what is over and not
/// pending, and these end what is over among them. That compactor's epoch is the epoch of the record that it resets, or puts its statuses to.
/// Where there are compactions some stay, and the least milliseconds of their ids don't fall.
pub fn records_grow()
    ensures grow { (specs : List DbSpec) (events : List Event) (db : List ℕ)
        → IsAccepted specs → HasDb (world_at_end specs events) db
        → RecordsGrow (chains_at_end specs events logs.Compactions db) }
    ensures trimmed { (specs : List DbSpec) (events : List Event) (db : List ℕ)
        → IsAccepted specs → HasDb (world_at_end specs events) db
        → TrimmedByHolders (chains_at_end specs events logs.Compactions db) }
{}
