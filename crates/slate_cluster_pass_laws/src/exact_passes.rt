//! Passes: what they pick, and the deletes that they make.
ghost use Rattle.std.specs.Prelude.{◌≡◌, ℕ, Bool, List, [], true};
ghost use Rattle.slate_ids.specs.declared.gc_message.GcMessage.{GcMessage};
ghost use Rattle.slate_ids.specs.declared.gc_message.GcMessage.TheVariants as of;
ghost use Rattle.slate_script_events.specs.declared.call.Call.TheVariants.{Pass};
ghost use Rattle.slate_script_events.specs.declared.filter_word.FilterWord.{FilterWord};
ghost use Rattle.slate_cluster_protocol.specs.Calls.{collector_has, pass_settings};
ghost use Rattle.slate_cluster_protocol.specs.Passes.{IsExact, IsExactByRule, deletes_made};
ghost use Rattle.slate_cluster_protocol.specs.Rows.{Answered};
ghost use Rattle.slate_cluster_protocol.specs.declared.party.Facts.{Facts};
ghost use Rattle.slate_cluster_pass_laws.specs.PassPicks.{PicksAsRead};

/// Along any answers, a pass makes one delete for each of its picks, in their order, deletes that faulted included: a front of
/// them while it is under way or where it was refused, and all of them where it ended without a refusal. Its reply then has the
/// counts of its picks and of its deletes.
pub fn exact_pass()
    ensures { (facts : Facts) (pass : GcMessage) (min_age : ℕ) (dry_run : Bool) (filter : FilterWord)
        (answers : List Answered)
        → IsExact facts (Pass pass min_age dry_run filter) (pass_settings pass min_age dry_run) filter answers }
{}

/// Along any answers, a pass that a collector of a cluster has deletes what its rule picks of what it read: a front of it while it is under way
/// or where it was refused, and all of it where it ended without a refusal. Its reply then counts these picks.
pub fn exact_by_rule()
    ensures { (facts : Facts) (pass : GcMessage) (min_age : ℕ) (dry_run : Bool) (filter : FilterWord) (answers : List Answered)
        → collector_has (Pass pass min_age dry_run filter) ≡ true
        → IsExactByRule facts (Pass pass min_age dry_run filter) (pass_settings pass min_age dry_run) filter answers }
{}

/// What a pass over the manifests picks is what its answers to the list, to the get of the greatest version and to the get of the
/// boundary give.
pub fn manifest_picks()
    ensures { (facts : Facts) (min_age : ℕ) (dry_run : Bool) (filter : FilterWord) (answers : List Answered)
        → PicksAsRead facts of.Manifest min_age dry_run filter answers }
{}

/// What a pass over the records picks is what its answer to the list gives.
pub fn record_picks()
    ensures { (facts : Facts) (min_age : ℕ) (dry_run : Bool) (filter : FilterWord) (answers : List Answered)
        → PicksAsRead facts of.Compactions min_age dry_run filter answers }
{}

/// What a pass over tables picks is what its answers to the read of the record, to the read of the manifest, to the gets of the versions that this
/// manifest's checkpoints name and to the list give, where the pass has the moment of its first answer.
pub fn table_picks()
    ensures { (facts : Facts) (min_age : ℕ) (dry_run : Bool) (filter : FilterWord) (answers : List Answered)
        → PicksAsRead facts of.Compacted min_age dry_run filter answers }
{}

/// Along any answers, a dry run deletes nothing.
pub fn dry_run()
    ensures { (pass : GcMessage) (min_age : ℕ) (filter : FilterWord) (facts : Facts) (answers : List Answered)
        → deletes_made facts (Pass pass min_age true filter) answers ≡ [] }
{}
