//! One step of a party that has a call, at the store itself.
ghost use Rattle.std.specs.Prelude.{◌≡◌, IfOk, OnOk, OnErr};
ghost use Rattle.slate_store.specs.Store.{effect};
ghost use Rattle.slate_cluster_steps.specs.Followed.{standing};
ghost use Rattle.slate_cluster_steps.specs.PartySteps.{IsPartyStep};

use crate::steps::follow;
use crate::uploading::step_upload;
use crate::works::{asked, is_upload};
use slate_cluster_protocol::{Facts, Task};
use slate_ids::{Millis, OutOfMemory};
use slate_script_events::Reply;
use slate_store::{Made, Mark, MemoryStore, StoreAnswer, StoreCall, perform};
use std::alloc::Global;

/// The store call that a step made, and the reply that ends the call.
#[derive(Drop)]
pub struct PartyStep {
    /// The call, and what the store answered.
    pub made: Made,
    /// None where the call goes on.
    pub reply: Option<Reply>,
}

/// Makes a call under a mark. Running out of memory leaves the store's objects as they were.
pub(crate) fn perform_under(
    alloc: Global,
    store: &mut MemoryStore,
    mark: Mark,
    call: &StoreCall,
    moment: Millis,
) -> Result<StoreAnswer, OutOfMemory>
    ensures answer { IfOk result (λ answer. answer ≡ (effect mark call.now moment store.old.store).answer) }
    ensures store { OnOk result (store.new.store ≡ (effect mark call.now moment store.old.store).store) }
    ensures kept { OnErr result (store.new.store ≡ store.old.store) }
{
    store.set_mark(mark);
    perform(alloc, store, call, moment)
}

/// Makes the one store call that a party's call asks, under a mark. A reply ends the call. The answer is kept as the store gave it.
/// Running out of memory leaves the facts, the call and the store's objects as they were.
pub fn step_party(
    alloc: Global,
    facts: &mut Facts,
    task: &mut Task,
    store: &mut MemoryStore,
    moment: Millis,
    mark: Mark,
) -> Result<PartyStep, OutOfMemory>
    ensures ok { IfOk result (λ s. IsPartyStep facts.old task.old moment mark store.old.store store.new.store
        s.made (standing facts.new task.new s.reply)) }
    ensures call { OnOk result (task.new.call ≡ task.old.call) }
    ensures kept_facts { OnErr result (facts.new ≡ facts.old) }
    ensures kept_task { OnErr result (task.new ≡ task.old) }
    ensures kept_store { OnErr result (store.new.store ≡ store.old.store) }
{
    if is_upload(&task.work) {
        return step_upload(alloc, facts, task, store, moment, mark);
    }
    let call = asked(alloc, &task.work)?;
    let answer = perform_under(alloc, store, mark, &call, moment)?;
    let reply = follow(alloc, facts, task, moment, &answer)?;
    Ok(PartyStep {
        made: Made { call, answer },
        reply,
    })
}
