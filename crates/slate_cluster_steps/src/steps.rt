//! One step of a call.
ghost use Rattle.std.specs.Prelude.{◌≡◌, false, IfOk, OnErr};
ghost use Rattle.slate_txn_changes.specs.LogWorks.{work_asks, work_goes};
ghost use Rattle.slate_state_calls.specs.Commits.{manifest_put, record_put};
ghost use Rattle.slate_state_calls.specs.Opening.{open_asks, open_goes};
ghost use Rattle.slate_state_calls.specs.StateSteps.{state_asks};
ghost use Rattle.slate_txn_log.specs.declared.log_kind.LogKind.TheVariants as logs;
ghost use Rattle.slate_layout_manifests.specs.Decoding.{decoded_manifest};
ghost use Rattle.slate_gc_passes.specs.GcPhase.{gc_asks, gc_goes};
ghost use Rattle.slate_cluster_protocol.specs.Rows as rows;
ghost use Rattle.slate_cluster_protocol.specs.Rows.{moved};
ghost use Rattle.slate_cluster_protocol.specs.Works.{pass_ways};
ghost use Rattle.slate_cluster_protocol.specs.declared.work.Work.TheVariants as work;
ghost use Rattle.slate_layout_records.specs.RecordBytes.{decoded_record};
ghost use Rattle.slate_cluster_steps.specs.Followed.{at_work, standing, Ends, StillBoth, StillAt};
ghost use Rattle.slate_cluster_steps.specs.PutWorks.{is_upload};

use crate::begins::refuse;
use crate::table::{learn, manifest_reply, record_reply};
use crate::works::{manifests, records};
use slate_cluster_protocol::{Facts, Task, Work};
use slate_gc_passes::{GcPhase, Logs, PassSettings};
use slate_gc_picks::PlainWalGc;
use slate_ids::{DbPath, Millis, OutOfMemory, SlateDBError, StateCause};
use slate_layout::{CompactionsCodec, ManifestCodec};
use slate_model::{Compactions, Manifest};
use slate_script_events::{Call, FilterWord, Reply};
use slate_state_calls::{Compactor, OpenPhase, StatePhase};
use slate_state_record_updates::{CompactionsRules, RecordChange};
use slate_state_updates::{ManifestChange, ManifestRules};
use slate_store::{Step, StoreAnswer};
use slate_txn_changes::Changing;
use std::alloc::Global;
use std::mem;

// A refusal ends the call, unless memory ran out.
fn refused(refusal: SlateDBError) -> Result<Option<Reply>, OutOfMemory>
    ensures { Ends refusal result }
{
    Ok(Some(refuse(refusal)?))
}

// A change of the manifest goes on.
fn manifest_on(
    alloc: Global,
    facts: &mut Facts,
    call: &Call,
    db: DbPath,
    changing: &mut Changing<Option<ManifestChange>, Manifest>,
    now: Millis,
    answer: &StoreAnswer,
) -> Result<Option<Reply>, OutOfMemory>
    ensures ok { IfOk result (λ reply. rows.manifest_on facts.old call.now db changing.old
        (work_goes logs.Manifest decoded_manifest (manifest_put changing.old.change) now changing.old.work answer.now)
        ≡ at_work facts.new (work.Manifests db changing.new) reply) }
    ensures facts { OnErr result (facts.new ≡ facts.old) }
    ensures err { OnErr result (StillAt changing.old changing.new (work_asks db logs.Manifest changing.old.work)) }
{
    match changing.goes_on(alloc, &manifests(db), &ManifestRules, now, answer) {
        Step::Again => Ok(None),
        Step::Done(Err(e)) => refused(e),
        Step::Done(Ok(end)) => {
            learn(facts, call, &end);
            let reply = manifest_reply(call, &end);
            drop(end);
            Ok(Some(reply))
        }
    }
}

// A change of the record goes on.
fn record_on(
    alloc: Global,
    facts: &Facts,
    db: DbPath,
    changing: &mut Changing<Option<RecordChange>, Compactions>,
    now: Millis,
    answer: &StoreAnswer,
) -> Result<Option<Reply>, OutOfMemory>
    ensures ok { IfOk result (λ reply. rows.record_on facts.now db changing.old
        (work_goes logs.Compactions decoded_record (record_put changing.old.change) now changing.old.work answer.now)
        ≡ at_work facts.now (work.Records db changing.new) reply) }
    ensures err { OnErr result (StillAt changing.old changing.new (work_asks db logs.Compactions changing.old.work)) }
{
    match changing.goes_on(alloc, &records(db), &CompactionsRules, now, answer) {
        Step::Again => Ok(None),
        Step::Done(Err(e)) => refused(e),
        Step::Done(Ok(end)) => {
            let reply = record_reply(&end);
            drop(end);
            Ok(Some(reply))
        }
    }
}

// A pass goes on.
fn pass_on(
    alloc: Global,
    facts: &Facts,
    db: DbPath,
    settings: &PassSettings,
    filter: &FilterWord,
    phase: &mut GcPhase,
    now: Millis,
    answer: &StoreAnswer,
) -> Result<Option<Reply>, OutOfMemory>
    ensures ok { IfOk result (λ reply. rows.pass_on facts.now db settings.now filter.now
        (gc_goes (pass_ways filter.now) settings.now now phase.old answer.now)
        ≡ at_work facts.now (work.Pass db settings.now filter.now phase.new) reply) }
    ensures err { OnErr result (StillAt phase.old phase.new (gc_asks db settings.now.pass phase.old)) }
{
    let logs = Logs {
        db,
        manifests: ManifestCodec,
        records: CompactionsCodec,
    };
    let wal: Option<&PlainWalGc> = None;
    match phase.goes_on(alloc, &logs, Some(filter), wal, settings, now, answer) {
        Step::Again => Ok(None),
        Step::Done(Ok(counts)) => Ok(Some(Reply::Pass {
            picked: counts.picked,
            deleted: counts.deleted,
            failed: counts.failed,
        })),
        Step::Done(Err(e)) => refused(e),
    }
}

// An open of a compactor goes on: with its end the party holds what was opened.
fn open_on(
    alloc: Global,
    facts: &mut Facts,
    db: DbPath,
    phase: &mut OpenPhase,
    now: Millis,
    answer: &StoreAnswer,
) -> Result<Option<Reply>, OutOfMemory>
    ensures ok { IfOk result (λ reply. rows.open_on facts.old db (open_goes now phase.old answer.now)
        ≡ at_work facts.new (work.Opening db phase.new) reply) }
    ensures facts { OnErr result (facts.new ≡ facts.old) }
    ensures err { OnErr result (StillAt phase.old phase.new (open_asks db phase.old)) }
{
    match phase.goes_on(alloc, db, now, answer) {
        Step::Again => Ok(None),
        Step::Done(Err(e)) => refused(e),
        Step::Done(Ok(compactor)) => {
            let epoch = compactor.epoch;
            drop(mem::replace(&mut facts.compactor, Some(compactor)));
            Ok(Some(Reply::Epoch(epoch)))
        }
    }
}

// A call of a compactor on its state goes on; what the party holds may change.
fn state_on(
    alloc: Global,
    facts: &mut Facts,
    db: DbPath,
    phase: &mut StatePhase,
    now: Millis,
    answer: &StoreAnswer,
) -> Result<Option<Reply>, OutOfMemory>
    ensures ok { IfOk result (λ reply. rows.compactor_on facts.old db now phase.old answer.now facts.old.compactor
        ≡ at_work facts.new (work.Compacting db phase.new) reply) }
    ensures facts { OnErr result (facts.new ≡ facts.old) }
    ensures err { OnErr result (StillAt phase.old phase.new (state_asks db phase.old)) }
{
    let Some(compactor) = &mut facts.compactor else {
        return Ok(Some(Reply::Refused(SlateDBError::InvalidDBState(StateCause::NotOpen))));
    };
    match phase.goes_on(alloc, db, compactor, now, answer) {
        Step::Again => Ok(None),
        Step::Done(Ok(())) => Ok(Some(Reply::Done)),
        Step::Done(Err(e)) => refused(e),
    }
}

/// Goes on with a call that puts no table from the answer to the store call that it asked, at the moment of that call. A reply ends the call. Memory runs
/// out only after a list or a get, and leaves the facts and the call as they were.
pub(crate) fn follow(
    alloc: Global,
    facts: &mut Facts,
    task: &mut Task,
    moment: Millis,
    answer: &StoreAnswer,
) -> Result<Option<Reply>, OutOfMemory>
    requires { is_upload task.old.work ≡ false }
    ensures ok { IfOk result (λ reply. moved facts.old task.old.call task.old.work moment answer.now
        ≡ standing facts.new task.new reply) }
    ensures call { task.new.call ≡ task.old.call }
    ensures err { OnErr result (StillBoth facts.old task.old facts.new task.new) }
{
    match &mut task.work {
        Work::Manifests(db, changing) => {
            manifest_on(alloc, facts, &task.call, *db, changing, moment, answer)
        }
        Work::Records(db, changing) => record_on(alloc, facts, *db, changing, moment, answer),
        Work::PutTable(_, _, _) => unreachable!(),
        Work::Pass(db, settings, filter, phase) => {
            pass_on(alloc, facts, *db, settings, filter, phase, moment, answer)
        }
        Work::Opening(db, phase) => open_on(alloc, facts, *db, phase, moment, answer),
        Work::Compacting(db, phase) => state_on(alloc, facts, *db, phase, moment, answer),
    }
}
