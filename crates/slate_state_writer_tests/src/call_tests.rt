//! A compactor through a whole life, its refusals and its machines: tables of calls and answers.

use crate::calls::Answer::{
    Absent, BadSources, Done, Number, Numbers, OtherState, Refused, Stands, Status, Trees,
};
use crate::calls::Call::{
    Claim, Compacted, Create, Finished, InManifest, InRecord, Latest, Machine, Of, Open,
    OpenBySteps, Report, Rewrite, Submit,
};
use crate::calls::OnWriter::{
    Epoch, Fail, Finish, Held, HeldEpochs, HeldTrees, Local, Pending, Refresh, Schedule, Segments,
    View, ViewNumbers, WriteManifest, WriteRecord, WriteState,
};
use crate::calls::{Answer, BySteps, Row, play};
use crate::others::Other;
use slate_model::CompactionStatus;

const CREATE: Row = (Create, Done);

const LIVES: &[(&str, &[Row])] = &[
    (
        "an open raises, gives and resets",
        &[
            CREATE,
            (Open, Number(1)),
            (Latest, Numbers(2, 3)),
            (Of(0, Held), Numbers(2, 3)),
            (Of(0, HeldEpochs), Numbers(1, 1)),
            (Of(0, Pending), Number(0)),
            (Open, Number(2)),
            (Latest, Numbers(3, 5)),
        ],
    ),
    (
        "without a manifest nothing is opened",
        &[(Open, Refused(3))],
    ),
    (
        "each hand moves a compaction on",
        &[
            CREATE,
            (Open, Number(1)),
            (Submit, Done),
            (InRecord, Stands(CompactionStatus::Submitted, false)),
            (Of(0, Schedule), Done),
            (InRecord, Stands(CompactionStatus::Scheduled, false)),
            (Of(0, Local), Status(Some(CompactionStatus::Scheduled))),
            (Claim, Done),
            (InRecord, Stands(CompactionStatus::Running, true)),
            (Report, Done),
            (InRecord, Stands(CompactionStatus::Compacted, true)),
            (Of(0, Local), Status(Some(CompactionStatus::Scheduled))),
            (Of(0, Refresh), Done),
            (Of(0, Local), Status(Some(CompactionStatus::Compacted))),
        ],
    ),
    // A worker that claimed it keeps it; what waits for one is submitted again.
    (
        "a reset takes back what is scheduled",
        &[
            CREATE,
            (Open, Number(1)),
            (Submit, Done),
            (Of(0, Schedule), Done),
            (Open, Number(2)),
            (InRecord, Stands(CompactionStatus::Submitted, false)),
        ],
    ),
    (
        "a state is written manifest first",
        &[
            CREATE,
            (Finished, Number(1)),
            (Of(0, Pending), Number(1)),
            (Of(0, WriteState), Done),
            (Latest, Numbers(4, 8)),
            (InManifest, Trees(3, 1, Some((3, 61_000, Some(961_000))))),
            (InRecord, Stands(CompactionStatus::Completed, true)),
            (Of(0, Pending), Number(0)),
            (Of(0, Held), Numbers(4, 8)),
        ],
    ),
    (
        "manifest and record are written apart",
        &[
            CREATE,
            (Finished, Number(1)),
            (Of(0, WriteManifest), Done),
            (Latest, Numbers(4, 7)),
            (Of(0, Pending), Number(0)),
            (Of(0, WriteRecord), Done),
            (Latest, Numbers(4, 8)),
            (InRecord, Stands(CompactionStatus::Completed, true)),
        ],
    ),
    (
        "a failed compaction is recorded",
        &[
            CREATE,
            (Compacted, Number(1)),
            (Of(0, Fail), Done),
            (Of(0, WriteRecord), Done),
            (InRecord, Stands(CompactionStatus::Failed, true)),
        ],
    ),
    // The manifest held has five views, the local trees have three and a run.
    (
        "a view is made of what is local",
        &[
            CREATE,
            (Finished, Number(1)),
            (
                Of(0, View),
                Answer::View(3, 1, Some(CompactionStatus::Completed)),
            ),
            (Of(0, ViewNumbers), Numbers(2, 7)),
            (Of(0, HeldTrees), Trees(5, 0, None)),
        ],
    ),
];

// The table as a slice: a function that names a table has all of it written out.
fn lives() -> &'static [(&'static str, &'static [Row])] {
    LIVES
}

#[test]
fn a_compactor_through_its_life(rt: HostRuntime) {
    for (name, rows) in lives() {
        play(&rt, rt.alloc(), name, rows);
    }
}

const REFUSALS: &[(&str, &[Row])] = &[
    (
        "an older compactor is fenced",
        &[
            CREATE,
            (Finished, Number(1)),
            (Open, Number(2)),
            (Latest, Numbers(3, 9)),
            (Of(0, Refresh), Refused(2)),
            (Of(0, Schedule), Refused(2)),
            (Of(0, WriteManifest), Refused(2)),
            (Of(0, WriteRecord), Refused(2)),
            (Of(0, WriteState), Refused(2)),
            (Latest, Numbers(3, 9)),
            (Of(0, Held), Numbers(2, 7)),
            (Of(0, Epoch), Number(1)),
            (Of(0, Pending), Number(1)),
        ],
    ),
    (
        "a compaction has to be in its state",
        &[
            CREATE,
            (Open, Number(1)),
            (Of(0, Schedule), Absent),
            (Of(0, Finish), Absent),
            (Of(0, Fail), Absent),
            (Submit, Done),
            (Of(0, Schedule), Done),
            (Of(0, Schedule), OtherState),
            (Of(0, Finish), OtherState),
            (Of(0, Fail), Done),
            (Of(0, Fail), OtherState),
        ],
    ),
    (
        "sources have to stand",
        &[
            CREATE,
            (Compacted, Number(1)),
            (Rewrite(Other::NoViews), Done),
            (Of(0, Refresh), Done),
            (Of(0, Finish), BadSources),
            (Of(0, Local), Status(Some(CompactionStatus::Compacted))),
            (Of(0, Pending), Number(0)),
        ],
    ),
    // The record that was read is held, the manifest that refused it isn't, and what is local stays. The manifest with the checkpoint is held.
    (
        "a segment without a writer is refused",
        &[
            CREATE,
            (Rewrite(Other::Segment), Done),
            (Open, Number(1)),
            (Rewrite(Other::NoSegments), Done),
            (Submit, Done),
            (Of(0, Refresh), Refused(15)),
            (Of(0, Held), Numbers(3, 4)),
            (Of(0, Segments), Number(1)),
            (Of(0, Local), Status(None)),
            (Of(0, WriteManifest), Refused(15)),
            (Latest, Numbers(5, 4)),
            (Of(0, Held), Numbers(5, 4)),
        ],
    ),
    (
        "a checkpoint wants an initialised manifest",
        &[
            CREATE,
            (Finished, Number(1)),
            (Rewrite(Other::Uninitialised), Done),
            (Of(0, WriteManifest), Refused(8)),
            (Latest, Numbers(3, 7)),
            (Of(0, Pending), Number(1)),
        ],
    ),
];

// The table as a slice: a function that names a table has all of it written out.
fn refusals() -> &'static [(&'static str, &'static [Row])] {
    REFUSALS
}

#[test]
fn refusals_and_what_they_leave(rt: HostRuntime) {
    for (name, rows) in refusals() {
        play(&rt, rt.alloc(), name, rows);
    }
}

const MACHINES: &[(&str, &[Row])] = &[
    (
        "an open takes twelve steps",
        &[
            CREATE,
            (OpenBySteps(12), Number(1)),
            (Latest, Numbers(2, 3)),
        ],
    ),
    (
        "a write of a state takes twelve steps",
        &[
            CREATE,
            (Finished, Number(1)),
            (Machine(0, BySteps::WriteState, 12), Done),
            (Latest, Numbers(4, 8)),
        ],
    ),
    (
        "the other machines end well",
        &[
            CREATE,
            (Open, Number(1)),
            (Submit, Done),
            (Machine(0, BySteps::Schedule, 5), Done),
            (Machine(0, BySteps::Refresh, 6), Done),
            (Machine(0, BySteps::WriteRecord, 5), Done),
            (Latest, Numbers(2, 6)),
        ],
    ),
];

// The table as a slice: a function that names a table has all of it written out.
fn machines_rows() -> &'static [(&'static str, &'static [Row])] {
    MACHINES
}

#[test]
fn machines_of_calls(rt: HostRuntime) {
    for (name, rows) in machines_rows() {
        play(&rt, rt.alloc(), name, rows);
    }
}
