//! Entries of a trail.
ghost use Rattle.std.specs.Prelude.{◌≡◌, IfOk};
ghost use Rattle.slate_script_events.specs.declared.entry.Entry.TheVariants.{Called};

use crate::reply::Reply;
use slate_ids::{Millis, OutOfMemory};
use slate_store::{Mark, StoreAnswer, StoreCall};
use std::alloc::Global;

/// What became of an event.
#[derive(Debug, Drop)]
pub enum Entry {
    Opened {
        party: u32,
    },
    /// A call was started. A call that makes no store call has its reply at once.
    Started {
        party: u32,
        reply: Option<Reply>,
    },
    /// One store call was made, and with the last one of a call comes its reply.
    Called {
        party: u32,
        call: StoreCall,
        moment: Millis,
        mark: Mark,
        answer: StoreAnswer,
        reply: Option<Reply>,
    },
    /// A party stopped. Its call, where it had one, gets no reply.
    Stopped {
        party: u32,
    },
    /// Nothing happened: a step of a party that has no call, a start on one that has, or any of a party that stopped.
    Idle {
        party: u32,
    },
}

fn copy_reply(alloc: Global, reply: &Option<Reply>) -> Result<Option<Reply>, OutOfMemory>
    ensures { IfOk result (λ copied. copied ≡ reply.now) }
{
    match reply {
        None => Ok(None),
        Some(reply) => Ok(Some(reply.copy(alloc)?)),
    }
}

/// A call and its answer, copied.
fn copy_made(
    alloc: Global,
    call: &StoreCall,
    answer: &StoreAnswer,
) -> Result<(StoreCall, StoreAnswer), OutOfMemory>
    ensures { IfOk result (λ made. made ≡ (call.now, answer.now)) }
{
    let call = call.copy(alloc)?;
    match answer.copy(alloc) {
        Ok(answer) => Ok((call, answer)),
        Err(e) => {
            drop(call);
            Err(e)
        }
    }
}

/// The entry of a store call, of copies.
fn called(
    alloc: Global,
    party: u32,
    call: &StoreCall,
    moment: Millis,
    mark: Mark,
    answer: &StoreAnswer,
    reply: &Option<Reply>,
) -> Result<Entry, OutOfMemory>
    ensures { IfOk result (λ copied. copied ≡ Called party call.now moment mark answer.now reply.now) }
{
    let reply = copy_reply(alloc, reply)?;
    match copy_made(alloc, call, answer) {
        Ok((call, answer)) => Ok(Entry::Called {
            party,
            call,
            moment,
            mark,
            answer,
            reply,
        }),
        Err(e) => {
            drop(reply);
            Err(e)
        }
    }
}

impl Entry {
    /// An equal entry.
    pub fn copy(&self, alloc: Global) -> Result<Entry, OutOfMemory>
        ensures { IfOk result (λ copied. copied ≡ self.now) }
    {
        Ok(match self {
            Entry::Opened { party } => Entry::Opened { party: *party },
            Entry::Started { party, reply } => Entry::Started {
                party: *party,
                reply: copy_reply(alloc, reply)?,
            },
            Entry::Called {
                party,
                call,
                moment,
                mark,
                answer,
                reply,
            } => called(alloc, *party, call, *moment, *mark, answer, reply)?,
            Entry::Stopped { party } => Entry::Stopped { party: *party },
            Entry::Idle { party } => Entry::Idle { party: *party },
        })
    }
}
