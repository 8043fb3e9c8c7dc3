//! The one step of an upload. The upload is noted before its put, and taken back where that fails, since nothing may fail once the put had
//! its effect.
ghost use Rattle.std.specs.Prelude.{◌≡◌, true, IfOk, OnErr};
ghost use Rattle.slate_script_events.specs.declared.call.Call.{Call as AnyCall};
ghost use Rattle.slate_cluster_protocol.specs.Calls.{Finish};
ghost use Rattle.slate_cluster_protocol.specs.Rows.{put_on};
ghost use Rattle.slate_cluster_protocol.specs.Uploaded.{info_of, with_upload};
ghost use Rattle.slate_cluster_protocol.specs.declared.party.Facts.{Facts as AnyFacts};
ghost use Rattle.slate_cluster_protocol.specs.declared.work.Work.TheVariants as work;
ghost use Rattle.slate_cluster_steps.specs.Followed.{standing};
ghost use Rattle.slate_cluster_steps.specs.PartySteps.{IsPartyStep};
ghost use Rattle.slate_cluster_steps.specs.PutWorks.{is_upload};

use crate::party_steps::{PartyStep, perform_under};
use crate::works::put_call;
use slate_cluster_protocol::{Facts, Task, Upload, Work};
use slate_ids::{ByteList, DbPath, Millis, OutOfMemory, SlateDBError};
use slate_model::SsTableInfo;
use slate_script_events::Reply;
use slate_store::{Made, Mark, MemoryStore, StoreAnswer};
use std::alloc::Global;

// An equal upload.
fn copy_of(alloc: Global, upload: &Upload) -> Result<Upload, OutOfMemory>
    ensures { IfOk result (λ copied. copied ≡ upload.now) }
{
    Ok(Upload {
        table: upload.table,
        info: upload.info.clone(alloc)?,
    })
}

// The reply of an upload that was noted, by the store's answer. Where the put failed it is taken back.
fn reply_to(
    facts: &mut Facts,
    upload: &Upload,
    before: Option<SsTableInfo>,
    answer: &StoreAnswer,
) -> Reply
    ensures { (known : AnyFacts) → facts.old ≡ record known { uploads = with_upload upload.now known.uploads }
        → before ≡ info_of upload.now.table known.uploads
        → put_on known upload.now answer.now ≡ record { facts = facts.new; next = Finish result } }
{
    match answer {
        StoreAnswer::Written(_) => Reply::Done,
        _ => {
            facts.uploads.take_back(&upload.table, before);
            Reply::Refused(SlateDBError::StoreFault)
        }
    }
}

// Puts a table under a mark.
fn put_table(
    alloc: Global,
    facts: &mut Facts,
    db: DbPath,
    upload: &Upload,
    bytes: &ByteList,
    store: &mut MemoryStore,
    moment: Millis,
    mark: Mark,
) -> Result<PartyStep, OutOfMemory>
    ensures ok { IfOk result (λ s. (call : AnyCall) → IsPartyStep facts.old
        (record { call = call; work = work.PutTable db upload.now bytes.now }) moment mark store.old.store
        store.new.store s.made (standing facts.new
        (record { call = call; work = work.PutTable db upload.now bytes.now }) s.reply)) }
    ensures kept_facts { OnErr result (facts.new ≡ facts.old) }
    ensures kept_store { OnErr result (store.new.store ≡ store.old.store) }
{
    let call = put_call(alloc, db, upload.table, bytes)?;
    let before = facts.uploads.note(copy_of(alloc, upload)?)?;
    match perform_under(alloc, store, mark, &call, moment) {
        Ok(answer) => {
            let reply = Some(reply_to(facts, upload, before, &answer));
            let made = Made { call, answer };
            Ok(PartyStep { made, reply })
        }
        Err(e) => {
            facts.uploads.take_back(&upload.table, before);
            drop(call);
            Err(e)
        }
    }
}

/// Makes the put of a party that uploads a table, under a mark: its call ends. Running out of memory leaves the facts and the store's objects
/// as they were.
pub(crate) fn step_upload(
    alloc: Global,
    facts: &mut Facts,
    task: &Task,
    store: &mut MemoryStore,
    moment: Millis,
    mark: Mark,
) -> Result<PartyStep, OutOfMemory>
    requires { is_upload task.now.work ≡ true }
    ensures ok { IfOk result (λ s. IsPartyStep facts.old task.now moment mark store.old.store store.new.store
        s.made (standing facts.new task.now s.reply)) }
    ensures kept_facts { OnErr result (facts.new ≡ facts.old) }
    ensures kept_store { OnErr result (store.new.store ≡ store.old.store) }
{
    match &task.work {
        Work::PutTable(db, upload, bytes) => put_table(
            alloc, facts, *db, upload, bytes, store, moment, mark,
        ),
        _ => unreachable!(),
    }
}
