//! The lines of a report.

use crate::test_scripts::{is_text, text_of};
use slate_ids::{
    ByteList, CheckpointId, DbPath, Listed, ObjectPath, SlateDBError, StateCause, UpdateRule,
};
use slate_script::{
    ClusterCause, Entry, Reply, ScriptPlace, entry_line, push_cause, push_entries, push_entry,
    push_left, push_path, push_place,
};
use slate_store::{ListDir, Mark, ObjectMetadata, StoreAnswer, StoreCall, StoredObject};
use std::alloc::Global;
use std::process::Abort;

fn db(rt: &impl Abort) -> DbPath {
    DbPath::from_text("db")
        .expect(rt, "memory")
        .expect(rt, "a path")
}

fn manifest(rt: &impl Abort, number: u64) -> ObjectPath {
    ObjectPath::Manifest(db(rt), number)
}

fn boundary(rt: &impl Abort) -> ObjectPath {
    ObjectPath::ManifestBoundary(db(rt))
}

fn bytes(rt: &impl Abort, alloc: Global, bytes: &[u8]) -> ByteList {
    ByteList::copy_of(alloc, bytes).expect(rt, "memory")
}

// Whether this is the line of an entry.
fn has_line(rt: &impl Abort, alloc: Global, place: u64, entry: Entry, line: &str) -> bool {
    let found = entry_line(alloc, place, &entry).expect(rt, "memory");
    drop(entry);
    is_text(found, line)
}

// Whether this is the line of an entry, and of a copy.
fn is_line(rt: &impl Abort, alloc: Global, place: u64, entry: Entry, line: &str) -> bool {
    let copied = entry.copy(alloc).expect(rt, "memory");
    let one = has_line(rt, alloc, place, entry, line);
    let other = has_line(rt, alloc, place, copied, line);
    one && other
}

// Whether a call, its answer and its reply have this line.
fn tells(
    rt: &impl Abort,
    alloc: Global,
    call: StoreCall,
    answer: StoreAnswer,
    reply: Option<Reply>,
    line: &str,
) -> bool {
    let entry = Entry::Called {
        party: 1,
        call,
        moment: 5,
        mark: Mark::Good,
        answer,
        reply,
    };
    is_line(rt, alloc, 4, entry, line)
}

// Whether a start with this reply has this line.
fn starts(rt: &impl Abort, alloc: Global, reply: Option<Reply>, line: &str) -> bool {
    is_line(rt, alloc, 4, Entry::Started { party: 1, reply }, line)
}

#[test]
fn entries_without_a_store_call(rt: HostRuntime) {
    let alloc = rt.alloc();
    assert!(rt; is_line(&rt, alloc, 0, Entry::Opened { party: 7 }, "0 open 7\n"));
    assert!(rt; is_line(&rt, alloc, 6, Entry::Stopped { party: 7 }, "6 stop 7\n"));
    assert!(rt; is_line(&rt, alloc, 12, Entry::Idle { party: 7 }, "12 idle 7\n"));
    assert!(rt; starts(&rt, alloc, None, "4 start 1\n"));
}

// Whether this is the text of a store call.
fn calls(rt: &impl Abort, alloc: Global, call: StoreCall, text: &str) -> bool {
    let line = text_of(rt, alloc, "4 call 1 ", text, " -> fault\n");
    let good = tells(rt, alloc, call, StoreAnswer::Fault, None, line.as_str());
    drop(line);
    good
}

#[test]
fn lists(rt: HostRuntime) {
    let db = db(&rt);
    let dirs = [
        (ListDir::Manifests(db), "list db/manifest/"),
        (ListDir::Records(db), "list db/compactions/"),
        (ListDir::Tables(db), "list db/compacted/"),
        (ListDir::Wals(db), "list db/wal/"),
        (ListDir::All(db), "list db/"),
    ];
    for (dir, text) in &dirs {
        let call = StoreCall::List(*dir);
        assert!(rt; calls(&rt, rt.alloc(), call, text), "at {text}");
    }
}

fn put_new(rt: &impl Abort, alloc: Global) -> StoreCall {
    StoreCall::PutNew(manifest(rt, 4), bytes(rt, alloc, b"abc"))
}

fn replace(rt: &impl Abort, alloc: Global) -> StoreCall {
    StoreCall::Replace(boundary(rt), 6, bytes(rt, alloc, b"2"))
}

fn put(rt: &impl Abort, alloc: Global) -> StoreCall {
    StoreCall::Put(boundary(rt), bytes(rt, alloc, b""))
}

#[test]
fn calls_on_one_object(rt: HostRuntime) {
    let alloc = rt.alloc();
    assert!(rt;
        calls(
            &rt,
            alloc,
            StoreCall::Get(boundary(&rt)),
            "get db/gc/manifest.boundary"
        )
    );
    assert!(rt;
        calls(
            &rt,
            alloc,
            put_new(&rt, alloc),
            "put_new db/manifest/00000000000000000004.manifest 3",
        )
    );
    assert!(rt;
        calls(
            &rt,
            alloc,
            replace(&rt, alloc),
            "replace db/gc/manifest.boundary 6 1"
        )
    );
    assert!(rt; calls(&rt, alloc, put(&rt, alloc), "put db/gc/manifest.boundary 0"));
    assert!(rt;
        calls(
            &rt,
            alloc,
            StoreCall::Delete(manifest(&rt, 1)),
            "delete db/manifest/00000000000000000001.manifest",
        )
    );
}

// Whether this is the text of an answer.
fn answers(rt: &impl Abort, alloc: Global, answer: StoreAnswer, text: &str) -> bool {
    let line = text_of(
        rt,
        alloc,
        "4 call 1 delete db/gc/manifest.boundary -> ",
        text,
        "\n",
    );
    let call = StoreCall::Delete(boundary(rt));
    let good = tells(rt, alloc, call, answer, None, line.as_str());
    drop(line);
    good
}

fn found_one(rt: &impl Abort, alloc: Global) -> StoreAnswer {
    let mut found = Listed::new(alloc);
    let one = ObjectMetadata {
        location: boundary(rt),
        last_modified: 7,
        size: 8,
        e_tag: 9,
    };
    found.push(one).expect(rt, "memory");
    StoreAnswer::Found(found)
}

fn object(rt: &impl Abort, alloc: Global) -> StoreAnswer {
    StoreAnswer::Got(Some(StoredObject {
        bytes: bytes(rt, alloc, b"12"),
        last_modified: 7,
        e_tag: 9,
    }))
}

#[test]
fn answers_of_a_store(rt: HostRuntime) {
    let alloc = rt.alloc();
    assert!(rt; answers(&rt, alloc, found_one(&rt, alloc), "found 1"));
    assert!(rt; answers(&rt, alloc, object(&rt, alloc), "object 2"));
    assert!(rt; answers(&rt, alloc, StoreAnswer::Got(None), "none"));
    assert!(rt; answers(&rt, alloc, StoreAnswer::Created(Some(4)), "created 4"));
    assert!(rt; answers(&rt, alloc, StoreAnswer::Created(None), "exists"));
    assert!(rt; answers(&rt, alloc, StoreAnswer::Replaced(Some(5)), "replaced 5"));
    assert!(rt; answers(&rt, alloc, StoreAnswer::Replaced(None), "changed"));
    assert!(rt; answers(&rt, alloc, StoreAnswer::Written(6), "put 6"));
    assert!(rt; answers(&rt, alloc, StoreAnswer::Deleted, "deleted"));
    assert!(rt; answers(&rt, alloc, StoreAnswer::Fault, "fault"));
}

// Whether this is the text of a reply, and ends the line of a store call too.
fn replies(rt: &impl Abort, alloc: Global, reply: Reply, text: &str) -> bool {
    let other = reply.copy(alloc).expect(rt, "memory");
    let started = text_of(rt, alloc, "4 start 1 reply ", text, "\n");
    let called = text_of(
        rt,
        alloc,
        "4 call 1 get db/gc/manifest.boundary -> none reply ",
        text,
        "\n",
    );
    let call = StoreCall::Get(boundary(rt));
    let none = StoreAnswer::Got(None);
    let first = starts(rt, alloc, Some(reply), started.as_str());
    let second = tells(rt, alloc, call, none, Some(other), called.as_str());
    drop(started);
    drop(called);
    first && second
}

#[test]
fn replies_of_calls(rt: HostRuntime) {
    let alloc = rt.alloc();
    let checkpoint = Reply::Checkpoint(CheckpointId::from_u64(8), 3);
    let pass = Reply::Pass {
        picked: 2,
        deleted: 1,
        failed: 1,
    };
    assert!(rt; replies(&rt, alloc, Reply::Done, "done"));
    assert!(rt; replies(&rt, alloc, Reply::Epoch(3), "epoch 3"));
    assert!(rt;
        replies(
            &rt,
            alloc,
            checkpoint,
            "checkpoint 00000000-0000-0000-0000-000000000008 3"
        )
    );
    assert!(rt; replies(&rt, alloc, pass, "pass 2 1 1"));
}

// Whether this is the text of a refusal.
fn refuses(rt: &impl Abort, alloc: Global, refusal: SlateDBError, text: &str) -> bool {
    let line = text_of(rt, alloc, "4 start 1 reply refused ", text, "\n");
    let good = starts(rt, alloc, Some(Reply::Refused(refusal)), line.as_str());
    drop(line);
    good
}

/// Refusals with their numbers, and one without.
const REFUSALS: [(SlateDBError, &str); 9] = [
    (
        SlateDBError::TransactionalObjectVersionExists {
            number: 4,
            boundary: Some(3),
        },
        "1 TransactionalObjectVersionExists 4",
    ),
    (SlateDBError::Fenced { own: 1, read: 2 }, "2 Fenced 1 2"),
    (SlateDBError::ManifestMissing(9), "4 ManifestMissing 9"),
    (
        SlateDBError::InvalidClockTick {
            last_tick: 100,
            next_tick: -99,
        },
        "6 InvalidClockTick 100 -99",
    ),
    (
        SlateDBError::UpdateRefused(UpdateRule::U1),
        "7 UpdateRefused U1",
    ),
    (
        SlateDBError::UpdateRefused(UpdateRule::U9),
        "7 UpdateRefused U9",
    ),
    (
        SlateDBError::InvalidDBState(StateCause::NotOpen),
        "8 InvalidDBState",
    ),
    (SlateDBError::InvalidDeletion(3), "9 InvalidDeletion 3"),
    (SlateDBError::Exhausted(5), "22 Exhausted 5"),
];

#[test]
fn refusals_of_calls(rt: HostRuntime) {
    let alloc = rt.alloc();
    for (refusal, text) in &REFUSALS {
        let refusal = refusal.copy(alloc).expect(&rt, "memory");
        assert!(rt; refuses(&rt, alloc, refusal, text), "at {text}");
    }
    let missing = SlateDBError::CheckpointMissing(CheckpointId::from_u64(8));
    assert!(rt;
        refuses(
            &rt,
            alloc,
            missing,
            "5 CheckpointMissing 00000000-0000-0000-0000-000000000008",
        )
    );
}

#[test]
fn lines_of_all_entries(rt: HostRuntime) {
    let entries = [Entry::Opened { party: 7 }, Entry::Stopped { party: 7 }];
    let mut out = String::new(rt.alloc());
    push_entries(&mut out, &entries).expect(&rt, "memory");
    let idle = Entry::Idle { party: 7 };
    push_entry(&mut out, 9, &idle).expect(&rt, "memory");
    drop(idle);
    drop(entries);
    assert!(rt; is_text(out, "0 open 7\n1 stop 7\n9 idle 7\n"));
}

const LEFT: &str =
    "left db/manifest/00000000000000000001.manifest\nleft db/gc/manifest.boundary\ndb/gc/manifest.boundary";

#[test]
fn lines_of_what_is_left(rt: HostRuntime) {
    let paths = [manifest(&rt, 1), boundary(&rt)];
    let mut out = String::new(rt.alloc());
    push_left(&mut out, &paths).expect(&rt, "memory");
    drop(paths);
    let path = boundary(&rt);
    push_path(&mut out, &path).expect(&rt, "memory");
    drop(path);
    assert!(rt; is_text(out, LEFT));
}

const PLACES: [(ScriptPlace, &str); 4] = [
    (ScriptPlace::Json, "json"),
    (ScriptPlace::Top, "top"),
    (ScriptPlace::Database(2), "database 2"),
    (ScriptPlace::Event(1_000_000), "event 1000000"),
];

fn is_place(rt: &impl Abort, alloc: Global, place: ScriptPlace, text: &str) -> bool {
    let mut out = String::new(alloc);
    push_place(&mut out, place).expect(rt, "memory");
    is_text(out, text)
}

const CAUSES: [(ClusterCause, &str); 7] = [
    (ClusterCause::Path, "path"),
    (ClusterCause::Ids, "ids"),
    (ClusterCause::Value, "value"),
    (ClusterCause::Segments, "segments"),
    (ClusterCause::Checkpoints, "checkpoints"),
    (ClusterCause::Tables, "tables"),
    (ClusterCause::Floor, "floor"),
];

fn is_cause(rt: &impl Abort, alloc: Global, cause: ClusterCause, text: &str) -> bool {
    let mut out = String::new(alloc);
    push_cause(&mut out, cause).expect(rt, "memory");
    is_text(out, text)
}

#[test]
fn places_and_causes(rt: HostRuntime) {
    let alloc = rt.alloc();
    for (place, text) in &PLACES {
        assert!(rt; is_place(&rt, alloc, *place, *text), "at {text}");
    }
    for (cause, text) in &CAUSES {
        assert!(rt; is_cause(&rt, alloc, *cause, *text), "at {text}");
    }
}
