//! Events of scripts, and texts that are no script.

use crate::test_scripts::{is_bad_within, is_text, push_ulid, refusal_within, script_of};
use slate_ids::{CheckpointId, Text};
use slate_script::{Call, Event, FilterWord, FlushTable, ScriptPlace};
use std::alloc::{AllocError, Global};
use std::mem::size_of;
use std::process::Abort;

/// A script with each kind of event and each optional field.
const WHOLE: &str = r#"{"databases":[],
"events":[
{"open":1,"kind":"writer","db":"a"},
{"open":4294967295,"kind":"holder","db":"none"},
{"start":1,"call":"open_writer"},
{"start":1,"call":"upload","table":"1:2"},
{"start":1,"call":"upload","table":"281474976710655:1208925819614629174706175","first":"é","last":""},
{"start":1,"call":"flush","tables":[]},
{"start":1,"call":"flush","tables":[{"table":"5:1","view":"6:2"},{"table":"05:1","view":"7:0","prefix":"p"}],
"replay_after":18446744073709551615,"next_wal":0,"seq":3,"tick":-9223372036854775808},
{"open":6,"kind":"compactor","db":"a"},
{"start":6,"call":"open_compactor"},
{"start":6,"call":"refresh"},
{"start":6,"call":"schedule","id":"08:2"},
{"id":"8:03","start":6,"call":"finish"},
{"start":6,"call":"fail","id":"281474976710655:1208925819614629174706175"},
{"start":6,"call":"write_manifest","checkpoint":18446744073709551615},
{"start":6,"call":"write_record"},
{"start":6,"checkpoint":0,"call":"write_state"},
{"open":3,"kind":"worker","db":"a"},
{"start":3,"call":"claim","id":"08:1"},
{"start":3,"call":"report","id":"8:1","tables":[]},
{"start":3,"call":"report","tables":["9:1","9:2","9:1"],"id":"8:1"},
{"start":2,"call":"write_checkpoint","id":7},
{"start":2,"call":"write_checkpoint","id":7,"lifetime":18446744073709551615,"source":8,"name":""},
{"start":2,"call":"replace_checkpoint","old":3,"id":4},
{"start":2,"call":"replace_checkpoint","old":3,"id":4,"lifetime":0,"source":5,"name":"n"},
{"start":2,"call":"refresh_checkpoint","id":9},
{"start":2,"call":"refresh_checkpoint","id":9,"lifetime":10},
{"start":2,"call":"delete_checkpoint","id":0},
{"open":5,"kind":"collector","db":"a"},
{"start":5,"call":"pass","pass":"manifest"},
{"start":5,"call":"pass","pass":"manifest","min_age":18446744073709551615,"dry_run":true,"filter":"none"},
{"start":5,"call":"pass","pass":"manifest","min_age":0,"dry_run":false,"filter":"all"},
{"start":5,"call":"pass","pass":"manifest","filter":[]},
{"start":5,"filter":["a/manifest/00000000000000000001.manifest","","all","a\/b","all"],"call":"pass","pass":"manifest"},
{"start":5,"call":"pass","pass":"compactions"},
{"start":5,"call":"pass","pass":"compacted","min_age":1},
{"step":1,"at":-9223372036854775808},
{"step":2,"at":6,"mark":"fail","times":2},
{"step":3,"at":9223372036854775807,"mark":"lost","times":1},
{"stop":2}]}"#;

/// What its events are.
const EVENTS: [&str; 40] = [
    "open 1 Writer a",
    "open 4294967295 Holder none",
    "start 1 open writer",
    "start 1 upload 1:2 b\"a\" b\"z\"",
    "start 1 upload 281474976710655:1208925819614629174706175 b\"\\xc3\\xa9\" b\"\"",
    "start 1 flush 0 1 0 0",
    "start 1 flush 6:2>5:1 b\"\" 7:0>5:1 b\"p\" 18446744073709551615 0 3 -9223372036854775808",
    "open 6 Compactor a",
    "start 6 open compactor",
    "start 6 refresh trees",
    "start 6 schedule 8:2",
    "start 6 finish 8:3",
    "start 6 fail 281474976710655:1208925819614629174706175",
    "start 6 write manifest 18446744073709551615",
    "start 6 write record",
    "start 6 write state 0",
    "open 3 Worker a",
    "start 3 claim 8:1",
    "start 3 report 8:1",
    "start 3 report 8:1 9:1 9:2 9:1",
    "start 2 write 7 None None None",
    "start 2 write 7 Some(18446744073709551615) Some(8) Some(\"\")",
    "start 2 replace 3 4 None None None",
    "start 2 replace 3 4 Some(0) Some(5) Some(\"n\")",
    "start 2 refresh 9 None",
    "start 2 refresh 9 Some(10)",
    "start 2 delete 0",
    "open 5 Collector a",
    "start 5 pass Manifest 300000 false all",
    "start 5 pass Manifest 18446744073709551615 true nothing",
    "start 5 pass Manifest 0 false all",
    "start 5 pass Manifest 300000 false paths",
    "start 5 pass Manifest 300000 false paths \"a/manifest/00000000000000000001.manifest\" \"\" \"all\" \"a/b\" \"all\"",
    "start 5 pass Compactions 300000 false all",
    "start 5 pass Compacted 1 false all",
    "step 1 -9223372036854775808 Good",
    "step 2 6 Fail",
    "step 2 6 Fail",
    "step 3 9223372036854775807 Lost",
    "stop 2",
];

fn letters(name: &Option<Text>) -> Option<&str> {
    name.as_ref().map(|text| text.as_str())
}

fn number(id: &Option<CheckpointId>) -> Option<u128> {
    id.as_ref().map(|id| id.as_u128())
}

// What a checkpoint gets of its call.
fn push_named(
    out: &mut String,
    lifetime: Option<u64>,
    source: &Option<CheckpointId>,
    name: &Option<Text>,
) -> Result<(), AllocError> {
    let (source, name) = (number(source), letters(name));
    write!(out, " {lifetime:?} {source:?} {name:?}")
}

fn push_id(out: &mut String, word: &str, id: &CheckpointId) -> Result<(), AllocError> {
    let id = id.as_u128();
    write!(out, "{word} {id}")
}

fn push_tables(out: &mut String, tables: &[FlushTable]) -> Result<(), AllocError> {
    for table in tables {
        let prefix = &table.prefix;
        push_ulid(out, " ", table.view)?;
        push_ulid(out, ">", table.table)?;
        write!(out, " {prefix:?}")?;
    }
    Ok(())
}

fn push_writer_call(out: &mut String, call: &Call) -> Result<(), AllocError> {
    match call {
        Call::OpenWriter => out.push_str("open writer"),
        Call::Upload { table, first, last } => {
            push_ulid(out, "upload ", *table)?;
            write!(out, " {first:?} {last:?}")
        }
        Call::Flush {
            tables,
            replay_after,
            next_wal,
            seq,
            tick,
        } => {
            out.push_str("flush")?;
            push_tables(out, tables.as_slice())?;
            write!(out, " {replay_after} {next_wal} {seq} {tick}")
        }
        _ => push_worker_call(out, call),
    }
}

fn push_worker_call(out: &mut String, call: &Call) -> Result<(), AllocError> {
    match call {
        Call::Claim { id } => push_ulid(out, "claim ", *id),
        Call::Report { id, tables } => {
            push_ulid(out, "report ", *id)?;
            for table in tables.as_slice() {
                push_ulid(out, " ", *table)?;
            }
            Ok(())
        }
        _ => push_compactor_call(out, call),
    }
}

fn push_compactor_call(out: &mut String, call: &Call) -> Result<(), AllocError> {
    match call {
        Call::OpenCompactor => out.push_str("open compactor"),
        Call::Refresh => out.push_str("refresh trees"),
        Call::Schedule { id } => push_ulid(out, "schedule ", *id),
        Call::Finish { id } => push_ulid(out, "finish ", *id),
        Call::Fail { id } => push_ulid(out, "fail ", *id),
        Call::WriteManifest { checkpoint } => push_id(out, "write manifest", checkpoint),
        Call::WriteRecord => out.push_str("write record"),
        Call::WriteState { checkpoint } => push_id(out, "write state", checkpoint),
        _ => Ok(()),
    }
}

fn push_filter(out: &mut String, filter: &FilterWord) -> Result<(), AllocError> {
    match filter {
        FilterWord::All => out.push_str("all"),
        FilterWord::Nothing => out.push_str("nothing"),
        FilterWord::Paths(paths) => {
            out.push_str("paths")?;
            for path in paths.as_slice() {
                let path = path.as_str();
                write!(out, " {path:?}")?;
            }
            Ok(())
        }
    }
}

fn push_call(out: &mut String, call: &Call) -> Result<(), AllocError> {
    match call {
        Call::WriteCheckpoint {
            id,
            lifetime,
            source,
            name,
        } => {
            push_id(out, "write", id)?;
            push_named(out, *lifetime, source, name)
        }
        Call::ReplaceCheckpoint {
            old,
            id,
            lifetime,
            source,
            name,
        } => {
            push_id(out, "replace", old)?;
            push_id(out, "", id)?;
            push_named(out, *lifetime, source, name)
        }
        Call::RefreshCheckpoint { id, lifetime } => {
            push_id(out, "refresh", id)?;
            write!(out, " {lifetime:?}")
        }
        Call::DeleteCheckpoint { id } => push_id(out, "delete", id),
        Call::Pass {
            pass,
            min_age,
            dry_run,
            filter,
        } => {
            write!(out, "pass {pass:?} {min_age} {dry_run} ")?;
            push_filter(out, filter)
        }
        _ => push_writer_call(out, call),
    }
}

fn push_event(out: &mut String, event: &Event) -> Result<(), AllocError> {
    match event {
        Event::Open { party, kind, db } => {
            let db = db.get();
            write!(out, "open {party} {kind:?} {db}")
        }
        Event::Start { party, call } => {
            write!(out, "start {party} ")?;
            push_call(out, call.get())
        }
        Event::Step {
            party,
            moment,
            mark,
        } => write!(out, "step {party} {moment} {mark:?}"),
        Event::Stop { party } => write!(out, "stop {party}"),
    }
}

// Whether an event is told by this text, and a copy of it too.
fn is_told(rt: &impl Abort, alloc: Global, event: &Event, text: &str) -> bool {
    let mut one = String::new(alloc);
    push_event(&mut one, event).expect(rt, "memory");
    let copied = event.copy(alloc).expect(rt, "memory");
    let mut other = String::new(alloc);
    push_event(&mut other, &copied).expect(rt, "memory");
    drop(copied);
    let first = is_text(one, text);
    let second = is_text(other, text);
    first && second
}

#[test]
fn events_of_each_kind(rt: HostRuntime) {
    let script = script_of(&rt, rt.alloc(), WHOLE);
    let events = script.events.as_slice();
    assert!(rt; events.len() == EVENTS.len());
    for (event, text) in events.iter().zip(&EVENTS) {
        assert!(rt; is_told(&rt, rt.alloc(), event, text), "at {text}");
    }
    drop(script);
}

/// Texts that are no script as a whole.
const BAD_TEXTS: &[(&str, ScriptPlace)] = &[
    ("", ScriptPlace::Json),
    (r#"{"databases":[],"events":[1e400]}"#, ScriptPlace::Json),
    ("[]", ScriptPlace::Top),
    (r#"{"databases":[]}"#, ScriptPlace::Top),
    (r#"{"databases":[],"events":{}}"#, ScriptPlace::Top),
    (r#"{"databases":null,"events":[]}"#, ScriptPlace::Top),
    (
        r#"{"databases":[0],"events":[],"more":0}"#,
        ScriptPlace::Top,
    ),
];

// The table as a slice: a function that names a table has all of it written out.
fn bad_texts() -> &'static [(&'static str, ScriptPlace)] {
    BAD_TEXTS
}

#[test]
fn texts_that_are_no_script(rt: HostRuntime) {
    for (text, place) in bad_texts() {
        let bad = is_bad_within(&rt, rt.alloc(), "", text, "", *place);
        assert!(rt; bad, "at {text}");
    }
}

/// Events of which one is none, with its place.
const BAD_EVENTS: &[(&str, u64)] = &[
    ("1", 0),
    (r#"{"stop":1},{"stop":1,"at":0}"#, 1),
    (r#"{"step":1,"at":0,"times":1000},{}"#, 1000),
    (r#"{"open":1,"kind":"boss","db":"a"}"#, 0),
    (r#"{"open":1,"kind":"Compactor","db":"a"}"#, 0),
    (r#"{"open":1,"kind":"holder","db":"a","stop":1}"#, 0),
    (r#"{"step":1,"at":0,"times":0}"#, 0),
    (r#"{"step":1,"at":0,"times":1001}"#, 0),
    (r#"{"step":1,"at":0,"mark":"good"}"#, 0),
    (r#"{"step":1,"at":0,"mark":null}"#, 0),
    (r#"{"step":1,"at":9223372036854775808}"#, 0),
    (r#"{"step":1,"stop":1}"#, 0),
    (r#"{"stop":4294967296}"#, 0),
    (r#"{"start":1,"call":"replace"}"#, 0),
    (r#"{"start":1,"call":"write_checkpoint"}"#, 0),
    (
        r#"{"start":1,"call":"write_checkpoint","id":1,"lifetime":-1}"#,
        0,
    ),
    (
        r#"{"start":1,"call":"write_checkpoint","id":1,"name":1}"#,
        0,
    ),
    (r#"{"start":1,"call":"write_checkpoint","id":1,"old":1}"#, 0),
    (r#"{"start":1,"call":"replace_checkpoint","id":1}"#, 0),
    (
        r#"{"start":1,"call":"replace_checkpoint","old":1,"id":1,"source":"1"}"#,
        0,
    ),
    (
        r#"{"start":1,"call":"refresh_checkpoint","id":1,"lifetime":1.0}"#,
        0,
    ),
    (
        r#"{"start":1,"call":"refresh_checkpoint","id":1,"name":"x"}"#,
        0,
    ),
    (
        r#"{"start":1,"call":"delete_checkpoint","id":1,"lifetime":1}"#,
        0,
    ),
];

// The table as a slice: a function that names a table has all of it written out.
fn bad_events() -> &'static [(&'static str, u64)] {
    BAD_EVENTS
}

/// What stands before events.
const BEFORE_EVENTS: &str = r#"{"databases":[],"events":["#;

#[test]
fn events_that_are_none(rt: HostRuntime) {
    for (items, place) in bad_events() {
        let place = ScriptPlace::Event(*place);
        let bad = is_bad_within(&rt, rt.alloc(), BEFORE_EVENTS, items, "]}", place);
        assert!(rt; bad, "at {items}");
    }
}

/// What stands before the name of a call.
const BEFORE_CALL: &str = r#"{"databases":[],"events":[{"stop":1},{"start":1,"call":"#;

/// Names and fields of calls of writers, compactors and workers that are none.
const BAD_CALLS: &[&str] = &[
    r#""upload""#,
    r#""upload","table":"1""#,
    r#""upload","table":1"#,
    r#""upload","table":"1:1","first":null"#,
    r#""upload","table":"1:1","last":["z"]"#,
    r#""upload","table":"1:1","view":"1:1""#,
    r#""flush""#,
    r#""flush","tables":{}"#,
    r#""flush","tables":["1:1"]"#,
    r#""flush","tables":[{"table":"1:1"}]"#,
    r#""flush","tables":[{"view":"1:1"}]"#,
    r#""flush","tables":[{"table":"1:1","view":"1:1"},{"table":"1:1","view":":1"}]"#,
    r#""flush","tables":[{"table":"1:1","view":"1:1","prefix":0}]"#,
    r#""flush","tables":[{"table":"1:1","view":"1:1","first":"a"}]"#,
    r#""flush","tables":[],"replay_after":-1"#,
    r#""flush","tables":[],"next_wal":18446744073709551616"#,
    r#""flush","tables":[],"seq":1.0"#,
    r#""flush","tables":[],"tick":9223372036854775808"#,
    r#""flush","tables":[],"tick":null"#,
    r#""flush","tables":[],"id":1"#,
    r#""open_writer","id":"1:1""#,
    r#""open_compactor","id":"1:1""#,
    r#""open_compactor","checkpoint":1"#,
    r#""refresh","id":"1:1""#,
    r#""refresh","checkpoint":1"#,
    r#""schedule""#,
    r#""schedule","id":1"#,
    r#""schedule","id":"1:1","checkpoint":1"#,
    r#""finish""#,
    r#""finish","id":"1""#,
    r#""finish","id":"1:1","tables":[]"#,
    r#""fail""#,
    r#""fail","id":null"#,
    r#""fail","id":"1:1","checkpoint":1"#,
    r#""write_manifest""#,
    r#""write_manifest","checkpoint":"1""#,
    r#""write_manifest","id":1"#,
    r#""write_manifest","checkpoint":1,"lifetime":1"#,
    r#""write_record","checkpoint":1"#,
    r#""write_state""#,
    r#""write_state","checkpoint":"1:1""#,
    r#""write_state","checkpoint":18446744073709551616"#,
    r#""write_state","checkpoint":1,"id":1"#,
    r#""claim""#,
    r#""claim","id":1"#,
    r#""claim","id":"1""#,
    r#""claim","id":"1:1","tables":[]"#,
    r#""report","id":"1:1""#,
    r#""report","tables":[]"#,
    r#""report","id":"1:1","tables":"1:1""#,
    r#""report","id":"1:1","tables":[1]"#,
    r#""report","id":"1:1","tables":[{"table":"1:1"}]"#,
];

// The table as a slice: a function that names a table has all of it written out.
fn bad_calls() -> &'static [&'static str] {
    BAD_CALLS
}

#[test]
fn calls_that_are_none(rt: HostRuntime) {
    let place = ScriptPlace::Event(1);
    for fields in bad_calls() {
        let bad = is_bad_within(&rt, rt.alloc(), BEFORE_CALL, fields, "}]}", place);
        assert!(rt; bad, "at {fields}");
    }
}

/// What stands before the fields of a pass.
const BEFORE_PASS: &str = r#"{"databases":[],"events":[{"stop":1},{"start":1,"call":"pass","#;

/// Fields of passes that are none.
const BAD_PASSES: &[&str] = &[
    r#""min_age":0"#,
    r#""pass":"detach""#,
    r#""pass":"wal""#,
    r#""pass":"wal_fence""#,
    r#""pass":"tables""#,
    r#""pass":"Compacted""#,
    r#""pass":"Manifest""#,
    r#""pass":"records""#,
    r#""pass":["manifest"]"#,
    r#""pass":"manifest","min_age":-1"#,
    r#""pass":"manifest","min_age":1.0"#,
    r#""pass":"manifest","min_age":18446744073709551616"#,
    r#""pass":"manifest","min_age":null"#,
    r#""pass":"manifest","dry_run":1"#,
    r#""pass":"manifest","dry_run":"true""#,
    r#""pass":"manifest","dry_run":null"#,
    r#""pass":"manifest","filter":[1]"#,
    r#""pass":"manifest","filter":["a",1]"#,
    r#""pass":"manifest","filter":["a",null,"b"]"#,
    r#""pass":"manifest","filter":[["a"]]"#,
    r#""pass":"manifest","filter":[[]]"#,
    r#""pass":"manifest","filter":{}"#,
    r#""pass":"manifest","filter":{"paths":["a"]}"#,
    r#""pass":"manifest","filter":1"#,
    r#""pass":"manifest","filter":true"#,
    r#""pass":"manifest","filter":"""#,
    r#""pass":"manifest","filter":"All""#,
    r#""pass":"manifest","filter":"some""#,
    r#""pass":"manifest","filter":"nothing""#,
    r#""pass":"manifest","filter":"a/manifest/00000000000000000001.manifest""#,
    r#""pass":"manifest","filter":null"#,
    r#""pass":"manifest","id":1"#,
    r#""pass":"manifest","at":0"#,
];

// The table as a slice: a function that names a table has all of it written out.
fn bad_passes() -> &'static [&'static str] {
    BAD_PASSES
}

#[test]
fn passes_that_are_none(rt: HostRuntime) {
    let place = ScriptPlace::Event(1);
    for fields in bad_passes() {
        let bad = is_bad_within(&rt, rt.alloc(), BEFORE_PASS, fields, "}]}", place);
        assert!(rt; bad, "at {fields}");
    }
}

// A stop, and 999 items of 1,000 steps.
fn many_events(rt: &impl Abort, alloc: Global) -> String {
    let mut text = String::from_str(alloc, r#"{"databases":[],"events":[{"stop":1}"#).expect(
        rt, "memory",
    );
    for _ in 0..999 {
        text.push_str(r#",{"step":1,"at":1,"times":1000}"#)
            .expect(rt, "memory");
    }
    text
}

/// What comes after many events: the most that there may be, and one more.
const FITS: &str = r#",{"step":1,"at":1,"times":999}]}"#;

const OVER: &str = r#",{"step":1,"at":1,"times":1000}]}"#;

// A script has at most 1,000,000 events.
#[test]
fn the_most_events(rt: HostRuntime) {
    let many = many_events(&rt, rt.alloc());
    let fits = refusal_within(&rt, rt.alloc(), many.as_str(), FITS, "");
    assert!(rt; fits.is_none());
    let place = ScriptPlace::Event(1_000_000);
    assert!(rt; is_bad_within(&rt, rt.alloc(), many.as_str(), OVER, "", place));
    drop(many);
}

/// A script may have a million events, so that each takes few bytes, whatever its call.
#[test]
fn an_event_takes_few_bytes(rt: HostRuntime) {
    assert!(rt; size_of::<Event>() <= 48);
}
