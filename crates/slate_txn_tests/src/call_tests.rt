//! Logs, their holders and fences, and the machines of their calls, over a store in memory: cases of calls and answers.

use crate::calls::Answer::{Done, Holds, IsFenced, Nothing, Refused, Taken, Two, Version};
use crate::calls::Call::{Machine, Make, Of, OfFenced, OfLog};
use crate::calls::Hold::{Create, Fence, FenceWith, Load, TryLoad};
use crate::calls::OnHolder::{AddNone, AddOnce, AddOne, Dirty, Held, Refresh, Refuse, Update};
use crate::calls::OnLog::{
    Advance, Commit, Delete, DeleteUnchecked, IsBoundary, IsFirst, Latest, List, Read, Stands,
};
use crate::calls::{Case, play};
use crate::steps::{HolderSteps, LogSteps, Steps};
use crate::test_logs::Versions;

const ONE: Versions = &[(1, [0, 5])];

const TWO: Versions = &[(1, [0, 5]), (2, [0, 6])];

/// Versions 0 to 3.
const FOUR: Versions = &[(0, [0, 4]), (1, [0, 5]), (2, [0, 6]), (3, [0, 7])];

/// A version of epoch 3.
const THIRD: Versions = &[(1, [3, 5])];

/// Reads, lists, commits, advances of the boundary and deletions.
const LOGS: &[Case] = &[
    ("no version", &[], None, &[(OfLog(Latest(2)), Nothing)]),
    (
        "two versions",
        TWO,
        None,
        &[(OfLog(Latest(2)), Version(2, (0, 6)))],
    ),
    (
        "a version at the boundary",
        TWO,
        Some("1"),
        &[
            (OfLog(Latest(2)), Version(2, (0, 6))),
            (OfLog(Read(1)), Version(1, (0, 5))),
            (OfLog(Read(9)), Nothing),
            (
                Machine(Steps::Log(LogSteps::Read(1)), 1),
                Version(1, (0, 5)),
            ),
        ],
    ),
    (
        "the latest at the boundary",
        TWO,
        Some("2"),
        &[(OfLog(Latest(2)), Refused(21))],
    ),
    (
        "a boundary that is none",
        &[(2, [0, 6])],
        Some("01"),
        &[(OfLog(Latest(2)), Refused(13))],
    ),
    (
        "versions are listed by number",
        &[(10, [0, 1]), (9, [0, 2]), (1, [0, 3])],
        None,
        &[
            (OfLog(List), Two(9, 10)),
            (Machine(Steps::Log(LogSteps::List), 1), Two(9, 10)),
        ],
    ),
    (
        "the next is committed",
        ONE,
        None,
        &[
            (OfLog(Commit((0, 4))), Refused(7)),
            (OfLog(Commit((0, 6))), Done),
            (OfLog(Commit((0, 7))), Taken(2, None)),
            (OfLog(Latest(1)), Version(2, (0, 6))),
        ],
    ),
    (
        "reads and commits by steps",
        ONE,
        None,
        &[
            (Machine(Steps::Log(LogSteps::Latest), 3), Version(1, (0, 5))),
            (Machine(Steps::Log(LogSteps::Commit), 2), Version(2, (0, 6))),
        ],
    ),
    (
        "a first boundary",
        &[],
        None,
        &[
            (OfLog(Advance(2)), Done),
            (OfLog(IsBoundary(Some("2"))), Done),
        ],
    ),
    (
        "a boundary of 0",
        &[],
        None,
        &[(OfLog(Advance(0)), Done), (OfLog(IsBoundary(None)), Done)],
    ),
    (
        "a boundary rises",
        &[],
        Some("9"),
        &[
            (OfLog(Advance(10)), Done),
            (OfLog(IsBoundary(Some("10"))), Done),
        ],
    ),
    (
        "a boundary doesn't fall",
        &[],
        Some("10"),
        &[
            (OfLog(Advance(9)), Done),
            (OfLog(IsBoundary(Some("10"))), Done),
        ],
    ),
    (
        "a boundary stays",
        &[],
        Some("2"),
        &[
            (OfLog(Advance(2)), Done),
            (OfLog(IsBoundary(Some("2"))), Done),
        ],
    ),
    (
        "no number",
        &[],
        Some("01"),
        &[
            (OfLog(Advance(2)), Refused(13)),
            (OfLog(IsBoundary(Some("01"))), Done),
        ],
    ),
    (
        "a deletion without a boundary",
        FOUR,
        None,
        &[(OfLog(Delete(1)), Refused(9)), (OfLog(Stands(1)), Done)],
    ),
    (
        "a deletion of 0 without a boundary",
        FOUR,
        None,
        &[(OfLog(Delete(0)), Done), (OfLog(Stands(0)), Nothing)],
    ),
    (
        "a deletion above 0",
        FOUR,
        Some("0"),
        &[(OfLog(Delete(1)), Refused(9)), (OfLog(Stands(1)), Done)],
    ),
    (
        "a deletion of the latest",
        FOUR,
        Some("1"),
        &[(OfLog(Delete(3)), Refused(9)), (OfLog(Stands(3)), Done)],
    ),
    (
        "a deletion above the boundary",
        FOUR,
        Some("1"),
        &[(OfLog(Delete(2)), Refused(9)), (OfLog(Stands(2)), Done)],
    ),
    (
        "a deletion at the boundary",
        FOUR,
        Some("1"),
        &[(OfLog(Delete(1)), Done), (OfLog(Stands(1)), Nothing)],
    ),
    (
        "a deletion under a boundary that is none",
        FOUR,
        Some("x"),
        &[(OfLog(Delete(1)), Refused(13)), (OfLog(Stands(1)), Done)],
    ),
    (
        "a deletion by steps",
        FOUR,
        Some("1"),
        &[
            (Machine(Steps::Log(LogSteps::Delete(1)), 2), Done),
            (OfLog(Stands(1)), Nothing),
        ],
    ),
    (
        "an unchecked deletion asks for no boundary",
        FOUR,
        None,
        &[
            (OfLog(DeleteUnchecked(2)), Done),
            (OfLog(Stands(2)), Nothing),
            (Machine(Steps::Log(LogSteps::DeleteUnchecked(3)), 1), Done),
            (OfLog(Stands(3)), Nothing),
        ],
    ),
    (
        "a commit of what follows, by steps",
        ONE,
        None,
        &[
            (Make(Load), Version(1, (0, 5))),
            (Machine(Steps::Of(0, HolderSteps::AddOne), 2), Done),
            (Of(0, Held), Version(2, (0, 6))),
        ],
    ),
    (
        "a function is asked again after a conflict",
        ONE,
        None,
        &[
            (Make(Load), Version(1, (0, 5))),
            (Make(Load), Version(1, (0, 5))),
            (Of(0, AddOnce), Done),
            (Of(1, AddOnce), Done),
            (Of(1, Held), Version(2, (0, 6))),
            (OfLog(Latest(1)), Version(2, (0, 6))),
        ],
    ),
];

// The table as a slice: a function that names a table has all of it written out.
fn logs() -> &'static [Case] {
    LOGS
}

#[test]
fn calls_on_logs(rt: HostRuntime) {
    for case in logs() {
        play(&rt, rt.alloc(), case);
    }
}

/// Creations and loads.
const CREATIONS: &[Case] = &[
    (
        "a creation commits version 1",
        &[],
        None,
        &[
            (Make(Create((0, 5))), Version(1, (0, 5))),
            (OfLog(IsFirst(Some([0, 5]))), Done),
        ],
    ),
    (
        "a creation above the boundary",
        &[],
        Some("0"),
        &[
            (Make(Create((3, 5))), Version(1, (3, 5))),
            (OfLog(IsFirst(Some([3, 5]))), Done),
        ],
    ),
    (
        "a creation where a version is",
        &[(1, [0, 7])],
        None,
        &[
            (Make(Create((0, 5))), Taken(1, None)),
            (OfLog(IsFirst(Some([0, 7]))), Done),
        ],
    ),
    (
        "a creation at the boundary",
        &[],
        Some("1"),
        &[
            (Make(Create((0, 5))), Taken(1, Some(1))),
            (OfLog(IsFirst(Some([0, 5]))), Done),
        ],
    ),
    (
        "a creation below the boundary",
        &[],
        Some("4"),
        &[(Make(Create((0, 5))), Taken(1, Some(4)))],
    ),
    (
        "a creation under a boundary that is none",
        &[],
        Some("x"),
        &[
            (Make(Create((0, 5))), Refused(13)),
            (OfLog(IsFirst(Some([0, 5]))), Done),
        ],
    ),
    (
        "a creation of a value without bytes",
        &[],
        None,
        &[
            (Make(Create((0, 256))), Refused(13)),
            (OfLog(IsFirst(None)), Done),
            (Machine(Steps::NoCreation, 0), Refused(13)),
            (OfLog(IsFirst(None)), Done),
        ],
    ),
    (
        "a creation holds what it put",
        &[],
        None,
        &[
            (Make(Create((2, 9))), Version(1, (2, 9))),
            (Of(0, Held), Version(1, (2, 9))),
            (OfLog(Latest(1)), Version(1, (2, 9))),
        ],
    ),
    (
        "a creation by steps",
        &[],
        None,
        &[(Machine(Steps::Create((2, 9)), 2), Version(1, (2, 9)))],
    ),
    (
        "loads without a version",
        &[],
        None,
        &[
            (Make(TryLoad), Nothing),
            (Machine(Steps::TryLoad, 1), Nothing),
            (Make(Load), Refused(3)),
        ],
    ),
    (
        "loads of a version",
        ONE,
        None,
        &[
            (Make(TryLoad), Version(1, (0, 5))),
            (Machine(Steps::TryLoad, 3), Version(1, (0, 5))),
            (Machine(Steps::Load, 3), Version(1, (0, 5))),
        ],
    ),
    (
        "a load of the latest",
        TWO,
        None,
        &[(Make(TryLoad), Version(2, (0, 6)))],
    ),
    (
        "a log without versions is refused",
        ONE,
        None,
        &[
            (Make(Load), Version(1, (0, 5))),
            (OfLog(DeleteUnchecked(1)), Done),
            (Make(Load), Refused(3)),
            (Of(0, Refresh), Refused(3)),
            (Of(0, Held), Version(1, (0, 5))),
        ],
    ),
    (
        "no value, and a refusal",
        ONE,
        None,
        &[
            (Make(Load), Version(1, (0, 5))),
            (Of(0, AddNone), Done),
            (Of(0, Refuse), Refused(22)),
            (OfLog(Latest(1)), Version(1, (0, 5))),
        ],
    ),
];

// The table as a slice: a function that names a table has all of it written out.
fn creations() -> &'static [Case] {
    CREATIONS
}

#[test]
fn creations_and_loads(rt: HostRuntime) {
    for case in creations() {
        play(&rt, rt.alloc(), case);
    }
}

/// Updates, refreshes and fences.
const HOLDERS: &[Case] = &[
    (
        "updates follow the version held",
        ONE,
        None,
        &[
            (Make(Load), Version(1, (0, 5))),
            (Of(0, Update(7, (0, 6))), Taken(7, None)),
            (Of(0, Dirty), Version(1, (0, 5))),
            (Of(0, Update(1, (0, 6))), Done),
            (Of(0, Dirty), Version(2, (0, 6))),
            (Of(0, Update(1, (0, 7))), Taken(1, None)),
            (Of(0, Dirty), Version(2, (0, 6))),
            (Of(0, Update(2, (0, 5))), Refused(7)),
            (Of(0, Dirty), Version(2, (0, 6))),
            (OfLog(Latest(1)), Version(2, (0, 6))),
        ],
    ),
    (
        "a stale holder is refused until it refreshes",
        ONE,
        None,
        &[
            (Make(Load), Version(1, (0, 5))),
            (Make(Load), Version(1, (0, 5))),
            (Of(0, Update(1, (0, 6))), Done),
            (Of(1, Update(1, (0, 7))), Taken(2, None)),
            (Of(1, Refresh), Done),
            (Of(1, Dirty), Version(2, (0, 6))),
            (Of(1, Update(2, (0, 7))), Done),
        ],
    ),
    (
        "a conflict is read again",
        ONE,
        None,
        &[
            (Make(Load), Version(1, (0, 5))),
            (Make(Load), Version(1, (0, 5))),
            (Make(Load), Version(1, (0, 5))),
            (Of(0, AddOne(1)), Done),
            (Of(1, AddOne(2)), Done),
            (Of(1, Held), Version(3, (0, 7))),
            (Of(2, AddOne(1)), Refused(21)),
            (OfLog(Latest(1)), Version(3, (0, 7))),
        ],
    ),
    (
        "a refresh by steps",
        ONE,
        None,
        &[
            (Make(Load), Version(1, (0, 5))),
            (Make(Load), Version(1, (0, 5))),
            (Of(1, Update(1, (0, 6))), Done),
            (Machine(Steps::Of(0, HolderSteps::Refresh), 3), Done),
            (Of(0, Held), Version(2, (0, 6))),
        ],
    ),
    (
        "an update by steps",
        ONE,
        None,
        &[
            (Make(Load), Version(1, (0, 5))),
            (Machine(Steps::Of(0, HolderSteps::NoUpdate(7)), 0), Nothing),
            (Machine(Steps::Of(0, HolderSteps::Update((0, 9))), 2), Done),
            (Of(0, Held), Version(2, (0, 9))),
        ],
    ),
    (
        "a fenced holder goes on",
        THIRD,
        None,
        &[
            (Make(Load), Version(1, (3, 5))),
            (Make(Fence(1)), Holds(4, 2, (4, 5))),
            (OfFenced(0, Update(2, (4, 6))), Done),
            (OfFenced(0, AddOne(2)), Done),
            (OfFenced(0, Refresh), Done),
            (OfFenced(0, Held), Holds(4, 4, (4, 7))),
            (OfFenced(0, Dirty), Version(4, (4, 7))),
        ],
    ),
    (
        "an older holder is fenced",
        ONE,
        None,
        &[
            (Make(Load), Version(1, (0, 5))),
            (Make(Fence(1)), Holds(1, 2, (1, 5))),
            (Make(Load), Version(2, (1, 5))),
            (Make(Fence(1)), Holds(2, 3, (2, 5))),
            (OfFenced(0, AddOne(2)), IsFenced(1, 2)),
            (OfFenced(0, Refresh), IsFenced(1, 2)),
            (OfFenced(0, Update(3, (2, 6))), IsFenced(1, 2)),
            (OfFenced(0, Dirty), IsFenced(1, 2)),
            (OfFenced(0, Held), Holds(1, 3, (2, 5))),
            (OfLog(Latest(1)), Version(3, (2, 5))),
        ],
    ),
    (
        "a fence reads again after a conflict",
        THIRD,
        None,
        &[
            (Make(Load), Version(1, (3, 5))),
            (Make(Load), Version(1, (3, 5))),
            (Make(Load), Version(1, (3, 5))),
            (Make(Fence(1)), Holds(4, 2, (4, 5))),
            (Make(Fence(1)), Refused(21)),
            (Make(Fence(2)), Holds(5, 3, (5, 5))),
        ],
    ),
    (
        "fences by steps",
        THIRD,
        None,
        &[
            (Make(Load), Version(1, (3, 5))),
            (Machine(Steps::NoFence(2), 0), Nothing),
            (Make(Load), Version(1, (3, 5))),
            (Machine(Steps::Fence, 2), Holds(4, 2, (4, 5))),
        ],
    ),
    (
        "a fence with an epoch by steps",
        THIRD,
        None,
        &[
            (Make(Load), Version(1, (3, 5))),
            (Machine(Steps::FenceWith(7), 2), Holds(7, 2, (7, 5))),
        ],
    ),
    (
        "a refresh fences by steps",
        ONE,
        None,
        &[
            (Make(Load), Version(1, (0, 5))),
            (Make(Fence(1)), Holds(1, 2, (1, 5))),
            (Make(Load), Version(2, (1, 5))),
            (Make(Fence(1)), Holds(2, 3, (2, 5))),
            (
                Machine(Steps::OfFenced(0, HolderSteps::Refresh), 3),
                IsFenced(1, 2),
            ),
            (OfFenced(0, Held), Holds(1, 3, (2, 5))),
        ],
    ),
    (
        "a fenced holder updates by steps",
        ONE,
        None,
        &[
            (Make(Load), Version(1, (0, 5))),
            (Make(Fence(1)), Holds(1, 2, (1, 5))),
            (
                Machine(Steps::OfFenced(0, HolderSteps::Update((1, 9))), 2),
                Done,
            ),
            (OfFenced(0, Held), Holds(1, 3, (1, 9))),
            (Machine(Steps::OfFenced(0, HolderSteps::AddOne), 2), Done),
            (OfFenced(0, Held), Holds(1, 4, (1, 10))),
        ],
    ),
    (
        "a fence with a smaller epoch",
        THIRD,
        None,
        &[
            (Make(Load), Version(1, (3, 5))),
            (Make(FenceWith(2, 1)), IsFenced(2, 3)),
        ],
    ),
    (
        "a fence with the same epoch",
        THIRD,
        None,
        &[
            (Make(Load), Version(1, (3, 5))),
            (Make(FenceWith(3, 1)), Holds(3, 2, (3, 5))),
        ],
    ),
    (
        "a fence with a greater epoch",
        THIRD,
        None,
        &[
            (Make(Load), Version(1, (3, 5))),
            (Make(FenceWith(9, 1)), Holds(9, 2, (9, 5))),
        ],
    ),
    (
        "a fence with an epoch without bytes",
        THIRD,
        None,
        &[
            (Make(Load), Version(1, (3, 5))),
            (Make(FenceWith(256, 1)), Refused(13)),
        ],
    ),
    (
        "after a conflict a fence has no more tries",
        THIRD,
        None,
        &[
            (Make(Load), Version(1, (3, 5))),
            (Make(Load), Version(1, (3, 5))),
            (Make(FenceWith(4, 1)), Holds(4, 2, (4, 5))),
            (Make(FenceWith(4, 1)), Refused(21)),
        ],
    ),
    (
        "after a conflict a smaller epoch is fenced",
        THIRD,
        None,
        &[
            (Make(Load), Version(1, (3, 5))),
            (Make(Load), Version(1, (3, 5))),
            (Make(FenceWith(4, 1)), Holds(4, 2, (4, 5))),
            (Make(FenceWith(3, 2)), IsFenced(3, 4)),
        ],
    ),
    (
        "after a conflict the same epoch is held",
        THIRD,
        None,
        &[
            (Make(Load), Version(1, (3, 5))),
            (Make(Load), Version(1, (3, 5))),
            (Make(FenceWith(4, 1)), Holds(4, 2, (4, 5))),
            (Make(FenceWith(4, 2)), Holds(4, 3, (4, 5))),
        ],
    ),
    (
        "after a conflict a greater epoch is held",
        THIRD,
        None,
        &[
            (Make(Load), Version(1, (3, 5))),
            (Make(Load), Version(1, (3, 5))),
            (Make(FenceWith(4, 1)), Holds(4, 2, (4, 5))),
            (Make(FenceWith(5, 2)), Holds(5, 3, (5, 5))),
        ],
    ),
];

// The table as a slice: a function that names a table has all of it written out.
fn holders() -> &'static [Case] {
    HOLDERS
}

#[test]
fn holders_and_fences(rt: HostRuntime) {
    for case in holders() {
        play(&rt, rt.alloc(), case);
    }
}
