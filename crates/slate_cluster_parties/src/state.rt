//! The state of a cluster, and what an event does to it.
ghost use Rattle.std.specs.Prelude.{◌≡◌, IfOk, OnErr, Some};
ghost use Rattle.slate_script_events.specs.declared.event.Event.TheVariants as events;
ghost use Rattle.slate_cluster_protocol.specs.Ids.{call_ids as call_ids_of};
ghost use Rattle.slate_cluster_protocol.specs.World.{World, refuses_start as start_refused};
ghost use Rattle.slate_cluster_opening.specs.Opened.{world_of};
ghost use Rattle.slate_cluster_parties.specs.Events.{Happened};

use crate::parties::{end_compaction, newcomer, start, step, stop, take_start};
use slate_cluster_opening::{Carried, Opening, Tallies, are_stale, carry, count, tally, uncarry};
use slate_cluster_protocol::{CallIds, Party};
use slate_cluster_steps::{call_ids, has_call, is_end};
use slate_ids::{DbPath, Millis, OutOfMemory};
use slate_script_events::{Call, Entry, Event, PartyKind};
use slate_store::{Mark, MemoryStore};
use std::alloc::Global;
use std::collections::BTreeMap;
use std::marker::Model;

/// The databases with their greatest committed numbers, the count of deletes, the store, the parties, and the ids that were
/// carried.
#[derive(Drop)]
pub struct ClusterState {
    tallies: Tallies,
    deleted: u64,
    store: MemoryStore,
    parties: BTreeMap<u32, Party>,
    carried: Carried,
}

impl Model for ClusterState {
    ghost use Rattle.slate_cluster_protocol.specs.Ids.{call_ids as call_ids_of};
    ghost use Rattle.slate_cluster_protocol.specs.World.{World, refuses_start as start_refused};

    ghost Value = { World };

    ghost view = { λ a. record {
      tallies = a.tallies.entries;
      deleted = a.deleted;
      store = a.store.store;
      parties = a.parties.entries;
      carried = a.carried;
    } };
}

// Whether a start of a call with these ids by a party is bad.
fn refuses_start(
    alloc: Global,
    carried: &Carried,
    party: &Party,
    call: &Call,
    ids: &CallIds,
) -> Result<bool, OutOfMemory>
    ensures { IfOk result (λ b. (w : World) → w.carried ≡ carried.now → ids.now ≡ call_ids_of call.now
        → b ≡ start_refused w call.now (Some party.now)) }
{
    Ok(!has_call(party.facts.kind, call) || are_stale(alloc, carried, ids)?)
}

impl ClusterState {
    /// The state as a run begins, with no party. Takes no memory.
    pub fn of(alloc: Global, opening: Opening) -> ClusterState
        ensures { result ≡ world_of opening }
    {
        let Opening {
            tallies,
            carried,
            store,
        } = opening;
        ClusterState {
            tallies,
            deleted: 0,
            store,
            parties: BTreeMap::new(alloc),
            carried,
        }
    }

    /// The databases, with their greatest committed numbers.
    pub fn tallies(&self) -> &Tallies
        ensures { result.now.entries ≡ self.now.tallies }
    {
        &self.tallies
    }

    /// How many deletes removed an object.
    pub fn deleted(&self) -> u64
        ensures { result ≡ self.now.deleted }
    {
        self.deleted
    }

    /// The store.
    pub fn store(&self) -> &MemoryStore
        ensures { result.now.store ≡ self.now.store }
    {
        &self.store
    }

    // A party comes.
    fn open(
        &mut self,
        alloc: Global,
        number: u32,
        kind: PartyKind,
        db: DbPath,
    ) -> Result<Option<Entry>, OutOfMemory>
        ensures ok { IfOk result (λ o. Happened self.old (events.Open number kind db) o self.new) }
        ensures err { OnErr result (self.new ≡ self.old) }
    {
        match (self.parties.get(&number), self.tallies.get(&db)) {
            (None, Some(_)) => {
                let comes = newcomer(alloc, number, kind, db);
                match self.parties.insert(number, comes) {
                    Ok(before) => {
                        drop(before);
                        Ok(Some(Entry::Opened { party: number }))
                    }
                    Err(e) => {
                        drop(e);
                        Err(OutOfMemory)
                    }
                }
            }
            _ => Ok(None),
        }
    }

    // A party starts a call, whose ids are carried.
    #[tactic(auto, using(crate::proofs::Same::same_party, crate::proofs::Starting::start_happens, crate::proofs::Starting::end_happens))]
    fn start(
        &mut self,
        alloc: Global,
        number: u32,
        call: &Call,
    ) -> Result<Option<Entry>, OutOfMemory>
        ensures ok { IfOk result (λ o. Happened self.old (events.Start number call.now) o self.new) }
        ensures err { OnErr result (self.new ≡ self.old) }
    {
        let Some(party) = self.parties.get_mut(&number) else {
            return Ok(None);
        };
        let ids = call_ids(alloc, call)?;
        if refuses_start(alloc, &self.carried, party, call, &ids)? {
            return Ok(None);
        }
        if is_end(call) {
            let noted = carry(alloc, &mut self.carried, number, &ids)?;
            match end_compaction(alloc, number, party, call) {
                Ok(entry) => {
                    drop(noted);
                    return Ok(Some(entry));
                }
                Err(e) => {
                    uncarry(&mut self.carried, noted);
                    return Err(e);
                }
            }
        }
        let begun = start(alloc, party, call)?;
        match carry(alloc, &mut self.carried, number, &ids) {
            Ok(noted) => {
                drop(noted);
                Ok(Some(take_start(number, party, begun)))
            }
            Err(e) => {
                drop(begun);
                Err(e)
            }
        }
    }

    // A party stops.
    #[tactic(auto, using(crate::proofs::Same::same_party))]
    fn stop(&mut self, number: u32) -> Option<Entry>
        ensures { Happened self.old (events.Stop number) result self.new }
    {
        match self.parties.get_mut(&number) {
            None => None,
            Some(party) => {
                if stop(party) {
                    Some(Entry::Stopped { party: number })
                } else {
                    Some(Entry::Idle { party: number })
                }
            }
        }
    }

    // A party that has a call makes its next store call.
    #[tactic(auto, using(crate::proofs::Same::same_party))]
    fn step(
        &mut self,
        alloc: Global,
        number: u32,
        moment: Millis,
        mark: Mark,
    ) -> Result<Option<Entry>, OutOfMemory>
        ensures ok { IfOk result (λ o. Happened self.old (events.Step number moment mark) o self.new) }
        ensures err { OnErr result (self.new ≡ self.old) }
    {
        let Some(party) = self.parties.get_mut(&number) else {
            return Ok(None);
        };
        let last_tag = self.store.last_tag();
        let objects = self.store.len();
        let Some(stepped) = step(alloc, party, &mut self.store, moment, mark)? else {
            return Ok(Some(Entry::Idle { party: number }));
        };
        let made = stepped.made;
        tally(
            &mut self.tallies,
            &made.call,
            last_tag < self.store.last_tag(),
        );
        self.deleted = count(self.deleted, &made.call, self.store.len() < objects);
        Ok(Some(Entry::Called {
            party: number,
            call: made.call,
            moment,
            mark,
            answer: made.answer,
            reply: stepped.reply,
        }))
    }

    /// Does one event. None where it is bad. A bad event, and running out of memory, change nothing.
    pub fn event(&mut self, alloc: Global, event: &Event) -> Result<Option<Entry>, OutOfMemory>
        ensures ok { IfOk result (λ o. Happened self.old event.now o self.new) }
        ensures err { OnErr result (self.new ≡ self.old) }
    {
        match event {
            Event::Open { party, kind, db } => self.open(alloc, *party, *kind, *db.get()),
            Event::Start { party, call } => self.start(alloc, *party, call.get()),
            Event::Stop { party } => Ok(self.stop(*party)),
            Event::Step {
                party,
                moment,
                mark,
            } => self.step(alloc, *party, *moment, *mark),
        }
    }
}
