//! The log of manifests, its holders, their checkpoints and fences, and the machines of their calls: tables of calls and answers.

use crate::answers::Answer::{Checkpoint, Done, Fenced, Holds, Nothing, Number, Refused, Taken};
use crate::answers::{db, empty};
use crate::checkpoint_steps::CheckpointSteps;
use crate::log_steps::LogSteps;
use crate::manifest_calls::Call::{self, Fence, Holder, Log, Machine};
use crate::manifest_calls::Hold::{self, Create, Load, TryLoad};
use crate::manifest_calls::OnHolder::{Again, Id, Prolong, Refresh, Remove, Replace, Stale, Write};
use crate::manifest_calls::OnLog::{
    Advance, Delete, DeleteUnchecked, Latest, List, Read, Referenced, TryLatest, TryRead,
};
use crate::manifest_calls::{Row, play};
use crate::manifest_steps::{HolderSteps, Steps};
use slate_model::ManifestCore;
use slate_state_holders::StoredManifest;

const CREATE: Row = (Call::Hold(Create), Number(1));

/// The log of manifests.
const LOG: &[(&str, &[Row])] = &[
    (
        "the latest and those above the boundary stay",
        &[
            CREATE,
            (Holder(0, Again), Done),
            (Holder(0, Again), Done),
            (Log(Advance(1)), Done),
            (Log(Delete(3)), Refused(9, 3)),
            (Log(Delete(2)), Refused(9, 2)),
            (Log(Delete(1)), Done),
            (Log(List), Number(23)),
        ],
    ),
    (
        "a named version stays",
        &[
            CREATE,
            (Call::Hold(Load), Number(1)),
            (
                Holder(1, Write(7, 1, 1, None)),
                Checkpoint(2, 7, Some(1007)),
            ),
            (Holder(1, Again), Done),
            (Log(Advance(2)), Done),
            (Log(Delete(2)), Refused(9, 2)),
            (Log(Delete(1)), Done),
            (Log(List), Number(23)),
        ],
    ),
    (
        "a log without a version",
        &[
            (Log(TryLatest), Nothing),
            (Log(Latest), Refused(3, 0)),
            (Log(Delete(1)), Refused(3, 0)),
            (Call::Hold(TryLoad), Nothing),
            (Call::Hold(Load), Refused(3, 0)),
        ],
    ),
    (
        "a number that is not there",
        &[
            CREATE,
            (Holder(0, Again), Done),
            (Log(TryRead(9)), Nothing),
            (Log(TryRead(2)), Done),
            (Log(Read(9)), Refused(4, 9)),
            (Log(Read(1)), Done),
            (Log(DeleteUnchecked(1)), Done),
            (Log(List), Number(2)),
            (Log(Latest), Number(2)),
        ],
    ),
    (
        "what checkpoints name is read",
        &[
            CREATE,
            (Log(Referenced(2)), Number(2)),
            (Log(DeleteUnchecked(1)), Done),
            (Log(Referenced(2)), Refused(4, 1)),
        ],
    ),
    (
        "a database is created once",
        &[
            CREATE,
            (Call::Hold(Create), Taken(1, None)),
            (Log(Latest), Number(1)),
        ],
    ),
];

// The table as a slice: a function that names a table has all of it written out.
fn log_rows() -> &'static [(&'static str, &'static [Row])] {
    LOG
}

#[test]
fn the_log_of_manifests(rt: HostRuntime) {
    for (name, rows) in log_rows() {
        play(&rt, rt.alloc(), name, rows);
    }
}

#[test]
fn a_new_database_is_initialised(rt: HostRuntime) {
    let alloc = rt.alloc();
    let mut store = empty(alloc);
    let core = ManifestCore::new(alloc);
    let holder = StoredManifest::create_new_db(alloc, &mut store, db(&rt), core, 5).expect(
        &rt, "memory",
    );
    assert!(rt; holder.id() == 1 && holder.db_state().initialized);
    drop(holder);
    drop(store);
}

/// The checkpoint calls, and fenced holders.
const HOLDERS: &[(&str, &[Row])] = &[
    (
        "a checkpoint is written once",
        &[
            CREATE,
            (
                Holder(0, Write(10, 1, 1, None)),
                Checkpoint(2, 10, Some(1010)),
            ),
            (
                Holder(0, Write(20, 1, 1, None)),
                Checkpoint(2, 10, Some(1010)),
            ),
            (Log(Latest), Number(2)),
        ],
    ),
    (
        "a checkpoint of a source",
        &[
            CREATE,
            (
                Holder(0, Write(10, 1, 1, None)),
                Checkpoint(2, 10, Some(1010)),
            ),
            (
                Holder(0, Write(20, 1, 2, Some(1))),
                Checkpoint(2, 20, Some(1020)),
            ),
            (Holder(0, Write(20, 1, 3, Some(9))), Refused(5, 0)),
        ],
    ),
    (
        "an absent checkpoint is replaced and not refreshed",
        &[
            CREATE,
            (Holder(0, Replace(10, 8, 9)), Checkpoint(2, 10, Some(1010))),
            (Holder(0, Prolong(10, 8, 5)), Refused(5, 0)),
            (
                Holder(0, Prolong(30, 9, 5000)),
                Checkpoint(2, 10, Some(5030)),
            ),
            (Holder(0, Remove(40, 8)), Done),
            (Log(Latest), Number(3)),
            (Holder(0, Remove(40, 9)), Done),
            (Log(Latest), Number(4)),
        ],
    ),
    (
        "a conflict is read again",
        &[
            CREATE,
            (Call::Hold(Load), Number(1)),
            (Holder(1, Again), Done),
            (Holder(0, Write(10, 1, 1, None)), Refused(21, 0)),
            (
                Holder(0, Write(10, 2, 1, None)),
                Checkpoint(3, 10, Some(1010)),
            ),
            (Holder(0, Id), Number(3)),
        ],
    ),
    (
        "a stale manifest is refused",
        &[
            CREATE,
            (Holder(0, Stale), Taken(1, None)),
            (Holder(0, Refresh), Done),
            (Holder(0, Id), Number(2)),
        ],
    ),
    (
        "a newer writer fences an older one",
        &[
            CREATE,
            (Call::Hold(Hold::Writer), Holds(2, 1)),
            (Call::Hold(Load), Number(2)),
            (Call::Hold(Hold::Writer), Holds(3, 2)),
            (Fence(0, Write(9, 2, 1, None)), Fenced(1, 2)),
            (Fence(0, Refresh), Fenced(1, 2)),
            (Fence(1, Write(9, 1, 1, None)), Checkpoint(4, 9, Some(1009))),
            (Fence(1, Id), Holds(4, 2)),
        ],
    ),
    (
        "a compactor and a writer do not fence each other",
        &[
            CREATE,
            (Call::Hold(Hold::Writer), Holds(2, 1)),
            (Call::Hold(Load), Number(2)),
            (Call::Hold(Hold::Compactor), Holds(3, 1)),
            (Fence(0, Write(9, 2, 1, None)), Checkpoint(4, 9, Some(1009))),
            (Fence(1, Refresh), Done),
            // Its making is read in whole seconds.
            (Fence(1, Prolong(10, 1, 5000)), Checkpoint(4, 0, Some(5010))),
            (Fence(1, Replace(10, 1, 2)), Checkpoint(6, 10, Some(1010))),
            (Fence(1, Remove(10, 2)), Done),
            (Fence(1, Again), Done),
        ],
    ),
];

// The table as a slice: a function that names a table has all of it written out.
fn holders() -> &'static [(&'static str, &'static [Row])] {
    HOLDERS
}

#[test]
fn holders_of_a_manifest(rt: HostRuntime) {
    for (name, rows) in holders() {
        play(&rt, rt.alloc(), name, rows);
    }
}

/// The machines of the same calls.
const MACHINES: &[(&str, &[Row])] = &[
    (
        "a machine reads in three steps",
        &[
            CREATE,
            (Holder(0, Again), Done),
            (Machine(Steps::Log(LogSteps::Latest), 3), Number(2)),
            (Machine(Steps::Log(LogSteps::TryLatest), 3), Done),
        ],
    ),
    (
        "a machine creates once",
        &[
            (Machine(Steps::Create, 2), Number(1)),
            (Machine(Steps::Create, 1), Taken(1, None)),
            (Log(Latest), Number(1)),
        ],
    ),
    (
        "a machine loads what is there",
        &[
            (Machine(Steps::Load, 1), Refused(3, 0)),
            CREATE,
            (Holder(0, Again), Done),
            (Machine(Steps::Load, 3), Number(2)),
        ],
    ),
    (
        "a machine tries to load",
        &[
            (Machine(Steps::TryLoad, 1), Nothing),
            CREATE,
            (Machine(Steps::TryLoad, 3), Number(1)),
        ],
    ),
    (
        "a machine refreshes",
        &[
            CREATE,
            (Call::Hold(Load), Number(1)),
            (Holder(1, Again), Done),
            (Machine(Steps::Holder(0, HolderSteps::Refresh), 3), Done),
            (Holder(0, Id), Number(2)),
        ],
    ),
    (
        "a machine updates",
        &[
            CREATE,
            (Machine(Steps::Holder(0, HolderSteps::Again), 2), Done),
            (Holder(0, Id), Number(2)),
            (
                Machine(Steps::Holder(0, HolderSteps::Stale), 0),
                Taken(2, None),
            ),
        ],
    ),
    (
        "a machine commits what is made, and nothing where none is made",
        &[
            CREATE,
            (Machine(Steps::Holder(0, HolderSteps::NoneMade), 0), Done),
            (Log(Latest), Number(1)),
            (Machine(Steps::Holder(0, HolderSteps::First), 2), Done),
            (Holder(0, Id), Number(2)),
        ],
    ),
    (
        "machines fence by kind",
        &[
            CREATE,
            (Machine(Steps::Writer, 2), Holds(2, 1)),
            (Call::Hold(Load), Number(2)),
            (Machine(Steps::Compactor, 2), Holds(3, 1)),
        ],
    ),
    (
        "a machine refreshes a fenced holder",
        &[
            CREATE,
            (Machine(Steps::Writer, 2), Holds(2, 1)),
            (Call::Hold(Load), Number(2)),
            (Machine(Steps::Writer, 2), Holds(3, 2)),
            (
                Machine(Steps::Fence(0, HolderSteps::Refresh), 3),
                Fenced(1, 2),
            ),
            (Fence(0, Id), Holds(3, 1)),
        ],
    ),
    (
        "machines read, list and delete as the calls do",
        &[
            (Machine(Steps::Log(LogSteps::Latest), 1), Refused(3, 0)),
            (Machine(Steps::Log(LogSteps::TryLatest), 1), Nothing),
            CREATE,
            (Holder(0, Again), Done),
            (Holder(0, Again), Done),
            (Machine(Steps::Log(LogSteps::Read(9)), 1), Refused(4, 9)),
            (Machine(Steps::Log(LogSteps::Read(1)), 1), Done),
            (Machine(Steps::Log(LogSteps::TryRead(9)), 1), Nothing),
            (Machine(Steps::Log(LogSteps::TryRead(2)), 1), Done),
            (Machine(Steps::Log(LogSteps::List), 1), Number(3)),
            (Machine(Steps::Log(LogSteps::Delete(1)), 3), Refused(9, 1)),
            (Machine(Steps::Log(LogSteps::Advance(1)), 2), Done),
            (Machine(Steps::Log(LogSteps::Delete(1)), 4), Done),
            (Machine(Steps::Log(LogSteps::DeleteUnchecked(2)), 1), Done),
            (Log(List), Number(3)),
        ],
    ),
    (
        "a machine reads what checkpoints name",
        &[
            CREATE,
            (Machine(Steps::Referenced(2), 1), Number(2)),
            (Log(DeleteUnchecked(1)), Done),
            (Machine(Steps::Referenced(2), 1), Refused(4, 1)),
        ],
    ),
    (
        "machines of the checkpoint calls",
        &[
            CREATE,
            (
                Machine(Steps::Checkpoint(0, CheckpointSteps::Write(1)), 2),
                Checkpoint(2, 5, Some(1005)),
            ),
            (
                Machine(Steps::Checkpoint(0, CheckpointSteps::WriteOver(1)), 0),
                Checkpoint(2, 5, Some(1005)),
            ),
            (
                Machine(Steps::Checkpoint(0, CheckpointSteps::Prolong(1, 3000)), 2),
                Checkpoint(2, 5, Some(3005)),
            ),
            (
                Machine(Steps::Checkpoint(0, CheckpointSteps::Replace(1, 2)), 2),
                Checkpoint(4, 5, Some(1005)),
            ),
            (
                Machine(Steps::Checkpoint(0, CheckpointSteps::Remove(2)), 2),
                Done,
            ),
            (Holder(0, Id), Number(5)),
        ],
    ),
    (
        "machines of the checkpoint calls of a fenced holder",
        &[
            CREATE,
            (Machine(Steps::Writer, 2), Holds(2, 1)),
            (
                Machine(Steps::FencedCheckpoint(0, CheckpointSteps::Write(1)), 2),
                Checkpoint(3, 5, Some(1005)),
            ),
            (
                Machine(Steps::FencedCheckpoint(0, CheckpointSteps::WriteOver(1)), 0),
                Checkpoint(3, 5, Some(1005)),
            ),
            (
                Machine(
                    Steps::FencedCheckpoint(0, CheckpointSteps::Prolong(1, 3000)),
                    2,
                ),
                Checkpoint(3, 5, Some(3005)),
            ),
            (
                Machine(
                    Steps::FencedCheckpoint(0, CheckpointSteps::Replace(1, 2)),
                    2,
                ),
                Checkpoint(5, 5, Some(1005)),
            ),
            (
                Machine(Steps::FencedCheckpoint(0, CheckpointSteps::Remove(2)), 2),
                Done,
            ),
            (Machine(Steps::Fence(0, HolderSteps::Again), 2), Done),
            (Machine(Steps::Fence(0, HolderSteps::NoneMade), 0), Done),
            (Fence(0, Id), Holds(7, 1)),
        ],
    ),
];

// The table as a slice: a function that names a table has all of it written out.
fn machines_rows() -> &'static [(&'static str, &'static [Row])] {
    MACHINES
}

#[test]
fn machines_of_calls_on_manifests(rt: HostRuntime) {
    for (name, rows) in machines_rows() {
        play(&rt, rt.alloc(), name, rows);
    }
}
