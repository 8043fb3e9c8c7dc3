//! What events do to a party.
ghost use Rattle.std.specs.Prelude.{◌≡◌, true, false, IfOk, OnErr};
ghost use Rattle.slate_cluster_protocol.specs.World.{newcomer as comes};
ghost use Rattle.slate_cluster_steps.specs.Onward.{is_end as ends_one, next_of};
ghost use Rattle.slate_cluster_parties.specs.Moved.{Begins, begins_at, ends_at, start_entry, after_start};
ghost use Rattle.slate_cluster_parties.specs.Moved.{Stops, is_busy, after_reply, StateMoves, StateStepped};

use slate_cluster_protocol::{Facts, Party, State, Task, Uploads};
use slate_cluster_steps::{Onward, PartyStep, begin, end, step_party};
use slate_ids::{DbPath, Millis, OutOfMemory};
use slate_script_events::{Call, Entry, PartyKind, Reply};
use slate_store::{Mark, MemoryStore};
use std::alloc::Global;
use std::mem;

/// A party that comes.
pub(crate) fn newcomer(alloc: Global, number: u32, kind: PartyKind, db: DbPath) -> Party
    ensures { result ≡ comes number kind db }
{
    Party {
        facts: Facts {
            number,
            kind,
            db,
            epoch: None,
            uploads: Uploads::new(alloc),
            compactor: None,
        },
        state: State::Resting,
    }
}

/// How a start leaves a party, and the reply of a call that has no store call to make.
#[derive(Drop)]
pub(crate) struct Begun {
    pub state: State,
    pub reply: Option<Reply>,
}

// A call at its beginning.
fn at_beginning(call: Call, next: Onward) -> Begun
    ensures { Begins call (next_of next) result.state result.reply }
{
    match next {
        Onward::Go(work) => Begun {
            state: State::Busy(Task { call, work }),
            reply: None,
        },
        Onward::Finish(reply) => {
            drop(call);
            Begun {
                state: State::Resting,
                reply: Some(reply),
            }
        }
    }
}

/// How a party starts a call, other than the end of a compaction. None where it has one, or was stopped.
pub(crate) fn start(alloc: Global, party: &Party, call: &Call) -> Result<Option<Begun>, OutOfMemory>
    requires { ends_one call.now ≡ false }
    ensures { IfOk result (λ o. begins_at party.now.facts party.now.state call.now o) }
{
    match &party.state {
        State::Resting => {
            let copied = call.copy(alloc)?;
            match begin(alloc, &party.facts, call) {
                Ok(next) => Ok(Some(at_beginning(copied, next))),
                Err(e) => {
                    drop(copied);
                    Err(e)
                }
            }
        }
        State::Busy(_) | State::Halted => Ok(None),
    }
}

// Lets a party do something else.
fn set_state(party: &mut Party, state: State)
    ensures { party.new ≡ record { facts = party.old.facts; state = state } }
{
    drop(mem::replace(&mut party.state, state));
}

/// Does a start to a party, as it was found to begin.
pub(crate) fn take_start(number: u32, party: &mut Party, begun: Option<Begun>) -> Entry
    ensures entry { result ≡ start_entry number begun }
    ensures party { party.new ≡ after_start party.old begun }
{
    match begun {
        None => Entry::Idle { party: number },
        Some(begun) => {
            set_state(party, begun.state);
            Entry::Started {
                party: number,
                reply: begun.reply,
            }
        }
    }
}

/// Ends a compaction in what a party holds, unless it has a call, or was stopped. Running out of memory changes nothing.
pub(crate) fn end_compaction(
    alloc: Global,
    number: u32,
    party: &mut Party,
    call: &Call,
) -> Result<Entry, OutOfMemory>
    requires { ends_one call.now ≡ true }
    ensures ok { IfOk result (λ entry. ends_at number party.old call.now entry party.new) }
    ensures err { OnErr result (party.new ≡ party.old) }
{
    match &party.state {
        State::Resting => {
            let reply = end(alloc, &mut party.facts, call)?;
            Ok(Entry::Started {
                party: number,
                reply: Some(reply),
            })
        }
        State::Busy(_) | State::Halted => Ok(Entry::Idle { party: number }),
    }
}

/// Stops a party. False where it was stopped before.
pub(crate) fn stop(party: &mut Party) -> bool
    ensures { Stops party.old result party.new }
{
    match &party.state {
        State::Halted => false,
        State::Resting | State::Busy(_) => {
            set_state(party, State::Halted);
            true
        }
    }
}

// Whether a party has a call.
fn has_call(state: &State) -> bool
    ensures { result ≡ is_busy state.now }
{
    matches!(state, State::Busy(_))
}

// A reply ends the party's call.
fn settle(party: &mut Party, reply: &Option<Reply>)
    ensures { party.new ≡ after_reply party.old reply.now }
{
    if let Some(_) = reply {
        set_state(party, State::Resting);
    }
}

// Makes the store call that the party's call asks, and goes on with the call or ends it. Running out of memory changes nothing.
fn step_busy(
    alloc: Global,
    party: &mut Party,
    store: &mut MemoryStore,
    moment: Millis,
    mark: Mark,
) -> Result<PartyStep, OutOfMemory>
    requires { is_busy party.old.state ≡ true }
    ensures ok { IfOk result (λ s. StateMoves party.old.facts party.old.state moment mark
        store.old.store store.new.store s party.new) }
    ensures kept_party { OnErr result (party.new ≡ party.old) }
    ensures kept_store { OnErr result (store.new.store ≡ store.old.store) }
{
    match &mut party.state {
        State::Resting | State::Halted => unreachable!(),
        State::Busy(task) => {
            let stepped = step_party(alloc, &mut party.facts, task, store, moment, mark)?;
            settle(party, &stepped.reply);
            Ok(stepped)
        }
    }
}

/// Makes the store call that the call of a party asks, and goes on with the call or ends it. None where the party has no call. Running
/// out of memory changes nothing.
pub(crate) fn step(
    alloc: Global,
    party: &mut Party,
    store: &mut MemoryStore,
    moment: Millis,
    mark: Mark,
) -> Result<Option<PartyStep>, OutOfMemory>
    ensures ok { IfOk result (λ o. StateStepped party.old moment mark store.old.store store.new.store
        o party.new) }
    ensures kept_party { OnErr result (party.new ≡ party.old) }
    ensures kept_store { OnErr result (store.new.store ≡ store.old.store) }
{
    if !has_call(&party.state) {
        return Ok(None);
    }
    Ok(Some(step_busy(alloc, party, store, moment, mark)?))
}
