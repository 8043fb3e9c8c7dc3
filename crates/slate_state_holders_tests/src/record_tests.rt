//! The log of records, its holders and fences, and the machines of their calls: tables of calls and answers.

use crate::answers::Answer::{Done, Fenced, Holds, Nothing, Number, Refused, Taken};
use crate::log_steps::LogSteps;
use crate::record_calls::Call::{Fence, Hold, Holder, Log, Machine};
use crate::record_calls::Hold::{Create, Init, InitWith, Load, TryLoad};
use crate::record_calls::OnHolder::{Again, Count, Epoch, Id, NoneMade, Refresh, Same};
use crate::record_calls::OnLog::{
    Advance, Delete, DeleteUnchecked, Latest, List, Read, TryLatest, TryRead,
};
use crate::record_calls::{Row, play};
use crate::record_steps::{HolderSteps, Steps};
use std::ops::Bound::{Excluded, Included, Unbounded};

const CREATE: Row = (Hold(Create(0)), Holds(1, 0));

const NOT_LOADED: Row = (Hold(Load), Refused(3, 0));

/// The log of records.
const LOG: &[(&str, &[Row])] = &[
    (
        "records are listed by number",
        &[
            CREATE,
            (Holder(0, Again), Done),
            (Log(List(Unbounded, Unbounded)), Number(12)),
            (Log(List(Included(1), Excluded(2))), Number(1)),
            (Log(List(Included(2), Unbounded)), Number(2)),
            (Log(List(Unbounded, Excluded(2))), Number(1)),
        ],
    ),
    (
        "the latest and those above the boundary stay",
        &[
            CREATE,
            (Holder(0, Again), Done),
            (Holder(0, Again), Done),
            (Log(Advance(1)), Done),
            (Log(Delete(3)), Refused(9, 3)),
            (Log(Delete(2)), Refused(9, 2)),
            (Log(Delete(1)), Done),
            (Log(List(Unbounded, Unbounded)), Number(23)),
        ],
    ),
    (
        "a log without a record",
        &[
            (Log(TryLatest), Nothing),
            (Log(Latest), Refused(3, 0)),
            (Log(Delete(1)), Refused(3, 0)),
            (Hold(TryLoad), Nothing),
            NOT_LOADED,
        ],
    ),
    (
        "a number that is not there",
        &[
            CREATE,
            (Holder(0, Again), Done),
            (Log(TryRead(9)), Nothing),
            (Log(TryRead(2)), Done),
            (Log(Read(9)), Refused(3, 0)),
            (Log(Read(1)), Done),
            (Log(DeleteUnchecked(1)), Done),
            (Log(List(Unbounded, Unbounded)), Number(2)),
            (Log(Latest), Number(2)),
        ],
    ),
];

// The table as a slice: a function that names a table has all of it written out.
fn log_rows() -> &'static [(&'static str, &'static [Row])] {
    LOG
}

#[test]
fn the_log_of_records(rt: HostRuntime) {
    for (name, rows) in log_rows() {
        play(&rt, rt.alloc(), name, rows);
    }
}

/// Holders of a record, and fenced ones.
const HOLDERS: &[(&str, &[Row])] = &[
    (
        "a log is begun once",
        &[
            (Hold(Create(3)), Holds(1, 3)),
            (Holder(0, Count), Number(0)),
            (Hold(Create(3)), Taken(1, None)),
        ],
    ),
    // The boundary is at 2 where record 2 is put: the put stands, and the answer names the boundary.
    (
        "a put behind the boundary stands",
        &[
            CREATE,
            (Log(Advance(2)), Done),
            (Holder(0, Again), Taken(2, Some(2))),
            (Holder(0, Id), Holds(1, 0)),
            (Log(Read(2)), Done),
        ],
    ),
    (
        "a stale holder is refused until it refreshes",
        &[
            CREATE,
            (Hold(Load), Holds(1, 0)),
            (Holder(1, Again), Done),
            (Holder(0, Again), Taken(2, None)),
            (Holder(0, Id), Holds(1, 0)),
            (Holder(0, Refresh), Done),
            (Holder(0, Id), Holds(2, 0)),
            (Holder(0, Again), Done),
            (Holder(0, Id), Holds(3, 0)),
            (Log(Latest), Number(3)),
        ],
    ),
    (
        "what is made is committed after a conflict",
        &[
            CREATE,
            (Hold(Load), Holds(1, 0)),
            (Holder(1, Again), Done),
            (Holder(0, Same(2)), Done),
            (Holder(0, Id), Holds(3, 0)),
            (Holder(0, NoneMade), Done),
            (Log(Latest), Number(3)),
        ],
    ),
    (
        "each holder has the next epoch",
        &[
            CREATE,
            (Hold(Init), Holds(2, 1)),
            (Hold(Load), Holds(2, 1)),
            (Hold(Init), Holds(3, 2)),
            (Hold(Load), Holds(3, 2)),
            (Hold(Init), Holds(4, 3)),
            (Hold(Load), Holds(4, 3)),
            (Hold(Init), Holds(5, 4)),
            (Log(Latest), Number(5)),
        ],
    ),
    (
        "the first of two holders is fenced, and commits nothing",
        &[
            CREATE,
            (Hold(Init), Holds(2, 1)),
            (Hold(Load), Holds(2, 1)),
            (Hold(Init), Holds(3, 2)),
            (Fence(0, Same(2)), Fenced(1, 2)),
            (Log(Latest), Number(3)),
            (Fence(0, Refresh), Fenced(1, 2)),
            (Fence(0, Id), Holds(3, 1)),
            (Fence(0, Again), Fenced(1, 2)),
            (Fence(1, Refresh), Done),
            (Fence(1, Again), Done),
            (Fence(1, Id), Holds(4, 2)),
            (Fence(1, Epoch), Number(2)),
        ],
    ),
    (
        "a first holder is fenced by what it reads",
        &[
            CREATE,
            (Hold(Init), Holds(2, 1)),
            (Hold(Load), Holds(2, 1)),
            (Hold(Init), Holds(3, 2)),
            (Fence(0, Refresh), Fenced(1, 2)),
            (Fence(0, Id), Holds(3, 1)),
            (Fence(0, Again), Fenced(1, 2)),
        ],
    ),
    (
        "an epoch is given",
        &[
            (Hold(Create(3)), Holds(1, 3)),
            (Hold(InitWith(2)), Fenced(2, 3)),
            (Hold(Load), Holds(1, 3)),
            (Hold(InitWith(3)), Holds(2, 3)),
            (Hold(Load), Holds(2, 3)),
            (Hold(InitWith(4)), Holds(3, 4)),
            (Hold(Load), Holds(3, 4)),
            (Hold(InitWith(3)), Fenced(3, 4)),
            (Log(Latest), Number(3)),
        ],
    ),
    (
        "nothing follows the last epoch",
        &[
            (Hold(Create(u64::MAX)), Holds(1, u64::MAX)),
            (Hold(Init), Refused(22, 0)),
        ],
    ),
];

// The table as a slice: a function that names a table has all of it written out.
fn holders_rows() -> &'static [(&'static str, &'static [Row])] {
    HOLDERS
}

#[test]
fn holders_of_a_record(rt: HostRuntime) {
    for (name, rows) in holders_rows() {
        play(&rt, rt.alloc(), name, rows);
    }
}

/// The machines of the calls on the log.
const LOG_MACHINES: &[(&str, &[Row])] = &[
    (
        "a machine reads in three steps",
        &[
            CREATE,
            (Holder(0, Again), Done),
            (Machine(Steps::Log(LogSteps::Latest), 3), Number(2)),
            (Machine(Steps::Log(LogSteps::TryLatest), 3), Number(2)),
        ],
    ),
    (
        "a machine finds no record",
        &[
            (Machine(Steps::Log(LogSteps::Latest), 1), Refused(3, 0)),
            (Machine(Steps::Log(LogSteps::TryLatest), 1), Nothing),
        ],
    ),
    (
        "a machine gets a number",
        &[
            CREATE,
            (Holder(0, Again), Done),
            (Machine(Steps::Log(LogSteps::TryRead(2)), 1), Done),
            (Machine(Steps::Log(LogSteps::TryRead(9)), 1), Nothing),
            (Machine(Steps::Log(LogSteps::Read(1)), 1), Done),
            (Machine(Steps::Log(LogSteps::Read(9)), 1), Refused(3, 0)),
        ],
    ),
    (
        "a machine lists and deletes by one call",
        &[
            CREATE,
            (Holder(0, Again), Done),
            (Holder(0, Again), Done),
            (Machine(Steps::Log(LogSteps::List), 1), Number(3)),
            (Machine(Steps::Log(LogSteps::DeleteUnchecked(1)), 1), Done),
            (Log(List(Unbounded, Unbounded)), Number(23)),
        ],
    ),
    (
        "machines advance and delete, but not the latest",
        &[
            CREATE,
            (Holder(0, Again), Done),
            (Machine(Steps::Log(LogSteps::Advance(1)), 2), Done),
            (Machine(Steps::Log(LogSteps::Delete(2)), 3), Refused(9, 2)),
            (Machine(Steps::Log(LogSteps::Delete(1)), 4), Done),
            (Log(Latest), Number(2)),
            (Log(List(Unbounded, Unbounded)), Number(2)),
        ],
    ),
];

// The table as a slice: a function that names a table has all of it written out.
fn log_machines() -> &'static [(&'static str, &'static [Row])] {
    LOG_MACHINES
}

#[test]
fn machines_of_calls_on_the_log(rt: HostRuntime) {
    for (name, rows) in log_machines() {
        play(&rt, rt.alloc(), name, rows);
    }
}

/// The machines of the calls of holders.
const HOLDER_MACHINES: &[(&str, &[Row])] = &[
    (
        "a machine begins a log once",
        &[
            (Machine(Steps::Create(3), 2), Holds(1, 3)),
            (Machine(Steps::Create(4), 1), Taken(1, None)),
            (Hold(Load), Holds(1, 3)),
        ],
    ),
    (
        "a machine loads what is there",
        &[
            (Machine(Steps::Load, 1), Refused(3, 0)),
            (Machine(Steps::TryLoad, 1), Nothing),
            CREATE,
            (Holder(0, Again), Done),
            (Machine(Steps::Load, 3), Holds(2, 0)),
            (Machine(Steps::TryLoad, 3), Holds(2, 0)),
        ],
    ),
    (
        "a machine refreshes",
        &[
            CREATE,
            (Hold(Load), Holds(1, 0)),
            (Holder(1, Again), Done),
            (Machine(Steps::Holder(0, HolderSteps::Refresh), 3), Done),
            (Holder(0, Id), Holds(2, 0)),
        ],
    ),
    (
        "a machine updates",
        &[
            CREATE,
            (Machine(Steps::Holder(0, HolderSteps::Again), 2), Done),
            (Holder(0, Id), Holds(2, 0)),
            (
                Machine(Steps::Holder(0, HolderSteps::Stale), 0),
                Taken(2, None),
            ),
        ],
    ),
    (
        "a machine commits what is made, and nothing where none is made",
        &[
            CREATE,
            (Machine(Steps::Holder(0, HolderSteps::NoneMade), 0), Done),
            (Log(Latest), Number(1)),
            (Machine(Steps::Holder(0, HolderSteps::Seventh), 2), Done),
            (Holder(0, Id), Holds(2, 7)),
        ],
    ),
    (
        "machines fence",
        &[
            CREATE,
            (Machine(Steps::Init, 2), Holds(2, 1)),
            (Hold(Load), Holds(2, 1)),
            (Machine(Steps::InitWith(5), 2), Holds(3, 5)),
            (
                Machine(Steps::Fence(0, HolderSteps::Refresh), 3),
                Fenced(1, 5),
            ),
            (Fence(0, Id), Holds(3, 1)),
        ],
    ),
    (
        "a machine of a greater epoch is not due",
        &[
            (Hold(Create(5)), Holds(1, 5)),
            (Machine(Steps::NotDue(4), 0), Nothing),
            (Log(Latest), Number(1)),
        ],
    ),
    (
        "a machine updates a fenced holder",
        &[
            CREATE,
            (Machine(Steps::Init, 2), Holds(2, 1)),
            (Machine(Steps::Fence(0, HolderSteps::Again), 2), Done),
            (Fence(0, Id), Holds(3, 1)),
            (Machine(Steps::Fence(0, HolderSteps::NoneMade), 0), Done),
        ],
    ),
];

// The table as a slice: a function that names a table has all of it written out.
fn holder_machines() -> &'static [(&'static str, &'static [Row])] {
    HOLDER_MACHINES
}

#[test]
fn machines_of_calls_of_holders(rt: HostRuntime) {
    for (name, rows) in holder_machines() {
        play(&rt, rt.alloc(), name, rows);
    }
}
