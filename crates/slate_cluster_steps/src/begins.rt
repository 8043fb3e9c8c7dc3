//! How calls begin.
ghost use Rattle.std.specs.Prelude.{◌≡◌, true, false, IfOk, OnErr};
ghost use Rattle.slate_script_events.specs.declared.call.Call.TheVariants.{Upload as UploadCall};
ghost use Rattle.slate_script_events.specs.declared.call.Call.TheVariants as ends;
ghost use Rattle.slate_script_events.specs.declared.reply.Reply.TheVariants as reply;
ghost use Rattle.slate_ids.specs.declared.error.SlateDBError.TheVariants as errors;
ghost use Rattle.slate_ids.specs.declared.error.StateCause.TheVariants as causes;
ghost use Rattle.slate_cluster_protocol.specs.Calls as calls;
ghost use Rattle.slate_cluster_protocol.specs.Rows as rows;
ghost use Rattle.slate_cluster_steps.specs.Followed.{Refuses};
ghost use Rattle.slate_cluster_steps.specs.Onward.{next_of, is_end as ends_one, is_other_call, Ends, Replies};
ghost use Rattle.slate_ids.specs.Answers.{ran_out};
ghost use Rattle.slate_state_compactor.specs.Local.{failed, finished};

use crate::table::{first_work, refusal_at_start};
use bytes::Bytes;
use slate_cluster_protocol::{Facts, Upload, Work};
use slate_ids::{ByteList, OutOfMemory, SlateDBError, StateCause, Ulid};
use slate_layout::encode_info;
use slate_model::{Plain, SsTableInfo};
use slate_script_events::{Call, Reply};
use slate_state_calls::Compactor;
use std::alloc::Global;

/// How a call goes on.
#[derive(Drop)]
pub enum Onward {
    /// With this work.
    Go(Work),
    /// It ends with this reply.
    Finish(Reply),
}

/// A refusal is the reply, unless memory ran out.
pub(crate) fn refuse(refusal: SlateDBError) -> Result<Reply, OutOfMemory>
    ensures { Refuses refusal result }
{
    if refusal.is_memory() {
        Err(OutOfMemory)
    } else {
        Ok(Reply::Refused(refusal))
    }
}

// What is known of a new table with these keys.
fn new_info(alloc: Global, first: &Bytes, last: &Bytes) -> Result<SsTableInfo, OutOfMemory>
    ensures { IfOk result (λ info. info ≡ calls.new_info first.now last.now) }
{
    Ok(SsTableInfo {
        first_entry: Some(Plain::clone(first, alloc)?),
        last_entry: Some(Plain::clone(last, alloc)?),
        ..SsTableInfo::default()
    })
}

// How an upload begins.
fn begin_upload(
    alloc: Global,
    facts: &Facts,
    table: Ulid,
    first: &Bytes,
    last: &Bytes,
) -> Result<Onward, OutOfMemory>
    ensures { IfOk result (λ next. next_of next
        ≡ (rows.begin facts.now (UploadCall table first.now last.now)).next) }
{
    let info = new_info(alloc, first, last)?;
    match encode_info(alloc, &info) {
        Ok(bytes) => {
            let upload = Upload { table, info };
            let bytes = ByteList::new(bytes);
            Ok(Onward::Go(Work::PutTable(facts.db, upload, bytes)))
        }
        Err(e) => Ok(Onward::Finish(refuse(e)?)),
    }
}

// How a call other than an upload and the end of a compaction begins.
fn begin_other(alloc: Global, facts: &Facts, call: &Call) -> Result<Onward, OutOfMemory>
    requires { is_other_call call.now ≡ true }
    ensures { IfOk result (λ next. next_of next ≡ (rows.begin facts.now call.now).next) }
{
    match refusal_at_start(facts, call) {
        Some(refusal) => Ok(Onward::Finish(Reply::Refused(refusal))),
        None => Ok(Onward::Go(first_work(alloc, facts, call)?)),
    }
}

/// Whether a call is the end of a compaction, which makes no store call.
pub fn is_end(call: &Call) -> bool
    ensures { result ≡ ends_one call.now }
{
    match call {
        Call::Finish { .. } | Call::Fail { .. } => true,
        _ => false,
    }
}

/// How a call of a party begins, other than the end of a compaction. It changes nothing of what the party holds.
pub fn begin(alloc: Global, facts: &Facts, call: &Call) -> Result<Onward, OutOfMemory>
    requires { ends_one call.now ≡ false }
    ensures { IfOk result (λ next. rows.begin facts.now call.now
        ≡ record { facts = facts.now; next = next_of next }) }
{
    match call {
        Call::Upload { table, first, last } => begin_upload(alloc, facts, *table, first, last),
        Call::Finish { .. } | Call::Fail { .. } => unreachable!(),
        _ => begin_other(alloc, facts, call),
    }
}

// The reply of an end, unless memory ran out.
fn replied(ended: Result<(), SlateDBError>) -> Result<Reply, OutOfMemory>
    ensures ok { IfOk result (λ reply. Replies ended reply) }
    ensures err { OnErr result (ran_out ended ≡ true) }
{
    match ended {
        Ok(()) => Ok(Reply::Done),
        Err(e) => refuse(e),
    }
}

// A compaction is finished in what a compactor holds.
fn finish_in(alloc: Global, compactor: &mut Compactor, id: Ulid) -> Result<Reply, OutOfMemory>
    ensures ok { IfOk result (λ reply. Ends (finished id compactor.old.local) compactor.old compactor.new reply) }
    ensures err { OnErr result (compactor.new ≡ compactor.old) }
{
    replied(compactor.local.finish(alloc, id))
}

// A compaction fails in it.
fn fail_in(alloc: Global, compactor: &mut Compactor, id: Ulid) -> Result<Reply, OutOfMemory>
    ensures ok { IfOk result (λ reply. Ends (failed id compactor.old.local) compactor.old compactor.new reply) }
    ensures err { OnErr result (compactor.new ≡ compactor.old) }
{
    replied(compactor.local.fail(alloc, id))
}

// The reply of a party that isn't open.
fn not_open() -> Reply
    ensures { result ≡ reply.Refused (errors.InvalidDBState causes.NotOpen) }
{
    Reply::Refused(SlateDBError::InvalidDBState(StateCause::NotOpen))
}

// How a compaction is finished.
#[tactic(auto, using(crate::proofs::Endings::finish_begins))]
fn finish(alloc: Global, facts: &mut Facts, id: Ulid) -> Result<Reply, OutOfMemory>
    ensures ok { IfOk result (λ reply. rows.begin facts.old (ends.Finish id)
        ≡ record { facts = facts.new; next = calls.Finish reply }) }
    ensures err { OnErr result (facts.new ≡ facts.old) }
{
    match &mut facts.compactor {
        None => Ok(not_open()),
        Some(compactor) => finish_in(alloc, compactor, id),
    }
}

// How a compaction fails.
#[tactic(auto, using(crate::proofs::Endings::fail_begins))]
fn fail(alloc: Global, facts: &mut Facts, id: Ulid) -> Result<Reply, OutOfMemory>
    ensures ok { IfOk result (λ reply. rows.begin facts.old (ends.Fail id)
        ≡ record { facts = facts.new; next = calls.Finish reply }) }
    ensures err { OnErr result (facts.new ≡ facts.old) }
{
    match &mut facts.compactor {
        None => Ok(not_open()),
        Some(compactor) => fail_in(alloc, compactor, id),
    }
}

/// Ends a compaction in what a party holds, and replies to its call. Running out of memory changes nothing.
pub fn end(alloc: Global, facts: &mut Facts, call: &Call) -> Result<Reply, OutOfMemory>
    requires { ends_one call.now ≡ true }
    ensures ok { IfOk result (λ reply. rows.begin facts.old call.now
        ≡ record { facts = facts.new; next = calls.Finish reply }) }
    ensures err { OnErr result (facts.new ≡ facts.old) }
{
    match call {
        Call::Finish { id } => finish(alloc, facts, *id),
        Call::Fail { id } => fail(alloc, facts, *id),
        _ => unreachable!(),
    }
}
