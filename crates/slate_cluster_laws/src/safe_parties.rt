//! Safety: what stands behind the promise that nothing reachable is deleted.
ghost use Rattle.std.specs.Prelude.{◌≡◌, ℕ, ◌<◌, ◌^◌, List, Some};
ghost use Rattle.slate_script_events.specs.declared.db_spec.DbSpec.{DbSpec};
ghost use Rattle.slate_script_events.specs.declared.event.Event.{Event};
ghost use Rattle.slate_txn_log.specs.declared.log_kind.LogKind.{LogKind};
ghost use Rattle.slate_cluster_protocol.specs.ByRows.{nobody};
ghost use Rattle.slate_cluster_protocol.specs.Holding.{EpochsStand, Fits};
ghost use Rattle.slate_cluster_protocol.specs.Lawful.{IsAccepted, AreGood, chains_at_end, world_at_end};
ghost use Rattle.slate_cluster_protocol.specs.Logs.{opening_chains};
ghost use Rattle.slate_cluster_protocol.specs.Specs.{opening_world};
ghost use Rattle.slate_cluster_protocol.specs.World.{HasDb, party_of};
ghost use Rattle.slate_cluster_protocol.specs.declared.party.Party.{Party};
ghost use Rattle.slate_cluster_protocol.specs.declared.party.State.TheVariants.{Busy};
ghost use Rattle.slate_cluster_protocol.specs.declared.party.Task.{Task};
ghost use Rattle.slate_cluster_laws.specs.InCalls.{AllStand, CommitsEnd, CommitsHold, CreatedGoOn, DueBounded, FetchedStand, InCall, LatePutsAreRefused, OwnOrRefused, PicksSpare, PutsStand, ReadsAnswer};
ghost use Rattle.slate_cluster_laws.specs.LogsAtEnd.{bound_at_end, AgreesAtEnd};
ghost use Rattle.slate_cluster_laws.specs.OwnCalls.{OwnCalls};

/// An object that stands above the boundary has the bytes that were committed at its number, and no other stands there.
pub fn above_boundary()
    ensures { (specs : List DbSpec) (events : List Event) (k : LogKind) (db : List ℕ) (bound number : ℕ)
        → IsAccepted specs → HasDb (world_at_end specs events) db
        → bound_at_end specs events k db ≡ Some bound
        → bound < number → number < 2 ^ 64
        → AgreesAtEnd specs events k db number }
{}

/// A party that is about to commit a version holds what it makes of the committed version before, by what it puts.
pub fn commits_hold()
    ensures { (specs : List DbSpec) (events : List Event) (n : ℕ) (p : Party) (task : Task)
        → IsAccepted specs → InCall specs events n p task (CommitsHold specs events n task) }
{}

/// What a party has put, with the boundary to be read next, is the committed version of its number, with its bytes and by this party, where
/// the boundary is below the number.
pub fn puts_stand()
    ensures { (specs : List DbSpec) (events : List Event) (n : ℕ) (p : Party) (task : Task)
        → IsAccepted specs → InCall specs events n p task (PutsStand specs events n task) }
{}

/// A put of a version that is answered `created` leads to the read of the boundary; the step that makes it ends the call with a refusal, or what
/// was put is the committed version of its number, with its bytes and by this party, whatever the step was marked; and so is a version with
/// which the step of a commit ends it.
pub fn own_commits()
    ensures created { (specs : List DbSpec) (events : List Event) (n : ℕ) (p : Party) (task : Task)
        → IsAccepted specs → InCall specs events n p task (CreatedGoOn p task) }
    ensures ends { (specs : List DbSpec) (events : List Event) (n : ℕ) (p : Party) (task : Task)
        → IsAccepted specs → InCall specs events n p task (CommitsEnd specs events n task) }
    ensures refused { (specs : List DbSpec) (events : List Event) (n : ℕ) (p : Party) (task : Task)
        → IsAccepted specs → InCall specs events n p task (OwnOrRefused specs events n p task) }
{}

/// Along each run: where a call has ended without a refusal, each version that it has put with the answer `created` is the committed one of its
/// number, with these bytes and by its party.
pub fn own_calls()
    ensures { (specs : List DbSpec) (events : List Event) → IsAccepted specs
        → OwnCalls events nobody (opening_world specs) (opening_chains specs) }
{}

/// What a party in a call puts is what its facts and its call say: the change of the call, and of a compactor that of the step, with its epoch
/// and what it holds.
pub fn changes_fit()
    ensures { (specs : List DbSpec) (events : List Event) (n : ℕ) (p : Party) (task : Task)
        → IsAccepted specs → party_of n (world_at_end specs events).parties ≡ Some p → p.state ≡ Busy task
        → Fits p.facts task.call task.work }
{}

/// A version that the end of a read answers is a committed one, whatever its party's step was marked.
pub fn reads_answer()
    ensures { (specs : List DbSpec) (events : List Event) (n : ℕ) (p : Party) (task : Task)
        → IsAccepted specs → InCall specs events n p task (ReadsAnswer specs events task) }
{}

/// What a pass over a log picked, and what is left of it, are versions of this log below the greatest committed one, and that version names none
/// of them.
pub fn picks_spare()
    ensures { (specs : List DbSpec) (events : List Event) (n : ℕ) (p : Party) (task : Task)
        → IsAccepted specs → InCall specs events n p task (PicksSpare specs events task) }
{}

/// What is left of the picks of a pass over a log is at or below the boundary of this log.
pub fn due_bounded()
    ensures { (specs : List DbSpec) (events : List Event) (n : ℕ) (p : Party) (task : Task)
        → IsAccepted specs → InCall specs events n p task (DueBounded specs events task) }
{}

/// What a pass has read of the versions that the latest manifest's checkpoints name: the manifest itself is the committed version of its number,
/// each number that it names was got or is left to be got, and each version that was got and is still needed is the committed one; so it is
/// while some are left, and when a pass over no log lists.
pub fn referenced_stand()
    ensures fetched { (specs : List DbSpec) (events : List Event) (n : ℕ) (p : Party) (task : Task)
        → IsAccepted specs → InCall specs events n p task (FetchedStand specs events task) }
    ensures listing { (specs : List DbSpec) (events : List Event) (n : ℕ) (p : Party) (task : Task)
        → IsAccepted specs → InCall specs events n p task (AllStand specs events task) }
{}

/// Where the object of a number was removed, the step of a party that reads the boundary to commit this number ends its call with a
/// refusal, whatever the mark: no call whose put was collected is answered as committed.
pub fn late_put_is_refused()
    ensures { (specs : List DbSpec) (events : List Event) (n : ℕ) (p : Party) (task : Task)
        → IsAccepted specs → AreGood specs events → InCall specs events n p task (LatePutsAreRefused specs events p task) }
{}

/// The epochs that a party holds stand: what an open of a compactor has raised is at most the compactor epoch of the greatest manifest
/// of its database, and at most the epoch of the greatest record once it was given to that, before its reset ended; where a compactor is
/// open, its epoch is at most both; these versions are there.
pub fn epochs_stand()
    ensures { (specs : List DbSpec) (events : List Event) (n : ℕ) (p : Party)
        → IsAccepted specs → party_of n (world_at_end specs events).parties ≡ Some p
        → EpochsStand (chains_at_end specs events) p }
{}
