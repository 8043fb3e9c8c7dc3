//! Databases of scripts, and items that are none.

use crate::test_scripts::{is_bad_within, is_text, push_ulid, script_within};
use bytes::Bytes;
use slate_model::{
    Checkpoint, CompressionTag, FilterFormat, LsmTreeState, Manifest, ManifestCore, Plain, Segment,
    SsTableInfo, SsTableView, SstType,
};
use slate_script::{DbSpec, ScriptPlace};
use std::alloc::{AllocError, Global};
use std::process::Abort;

/// What stands before databases, and after them where no event is read.
const BEFORE: &str = r#"{"databases":["#;

const AFTER: &str = r#"],"events":[]}"#;

/// A database with each field.
const WHOLE: &str =
    r#"{"path":"all","modified":-1,"initialized":false,"writer_epoch":1,"compactor_epoch":2,
"floor":3,"replay_after":4,"next_wal":6,"extractor":"x",
"l0":[
{"view":"9:1","table":"8:1"},
{"prefix":"b","view":"7:0","table":"6:0"},
{"view":"05:0002","table":"4:2"},
{"prefix":"","view":"3:3","table":"8:1"}],
"runs":[
{"id":7,"tables":["2:1","2:2"]},
{"prefix":"ab","id":4294967295,"tables":[]},
{"id":3,"tables":["4:2"]}],
"markers":[{"view":"1:1"},{"prefix":"c","view":"1:2"}],
"checkpoints":[{"id":5}],
"strays":["9:9","04:2","7:7","9:9"]}"#;

/// A database with segments that begin with one another.
const SEGMENTS: &str = r#"{"path":"d",
"l0":[{"prefix":"b","view":"1:0","table":"1:0"},{"prefix":"é","view":"2:0","table":"2:0"},{"prefix":"b","view":"3:0","table":"3:0"}],
"runs":[{"prefix":"abc","id":2,"tables":["5:0","4:0"]},{"prefix":"","id":1,"tables":[]},{"prefix":"a","id":0,"tables":["6:0"]}],
"markers":[{"prefix":"Z","view":"7:0"},{"prefix":"abc","view":"8:0"},{"prefix":"ab","view":"9:0"}]}"#;

/// What a database is: its numbers and words, checkpoints, root tree, segments and tables.
type Read = (
    &'static str,
    &'static str,
    &'static str,
    &'static str,
    &'static str,
);

/// Databases, with what they are. Without optional fields a database is as a new one; each prefix but "" has one segment, and they ascend
/// by bytes. A stray stands after the tables of the trees, once, and not again where a tree names it.
const DATABASES: [(&str, Read); 6] = [
    (
        WHOLE,
        (
            "all -1 false 1 2 3 4 6 Some(\"x\")",
            "5 1 None 0 None; ",
            "1:1 l0 9:1>8:1 5:2>4:2 3:3>8:1 run 7 2:1>2:1 2:2>2:2 run 3 4:2>4:2",
            "b\"ab\"  l0 run 4294967295; b\"b\"  l0 7:0>6:0; b\"c\" 1:2 l0; ",
            " 8:1 6:0 4:2 2:1 2:2 9:9 7:7",
        ),
    ),
    (
        r#"{"path":"d"}"#,
        ("d 0 true 0 0 0 0 1 None", "", " l0", "", ""),
    ),
    (
        SEGMENTS,
        (
            "d 0 true 0 0 0 0 1 None",
            "",
            " l0 run 1",
            "b\"Z\" 7:0 l0; b\"a\"  l0 run 0 6:0>6:0; b\"ab\" 9:0 l0; b\"abc\" 8:0 l0 run 2 5:0>5:0 4:0>4:0; b\"b\"  l0 1:0>1:0 3:0>3:0; b\"\\xc3\\xa9\"  l0 2:0>2:0; ",
            " 1:0 2:0 3:0 5:0 4:0 6:0",
        ),
    ),
    (
        r#"{"path":"a","modified":-5,"checkpoints":[{"id":1},{"id":18446744073709551615,"expire":-7,"name":"x"}]}"#,
        (
            "a -5 true 0 0 0 0 1 None",
            "1 1 None 0 None; 18446744073709551615 1 Some(-7) 0 Some(\"x\"); ",
            " l0",
            "",
            "",
        ),
    ),
    (
        r#"{"path":"b-1","checkpoints":[]}"#,
        ("b-1 0 true 0 0 0 0 1 None", "", " l0", "", ""),
    ),
    (
        r#"{"path":"s","strays":["3:0","1:0","2:0"]}"#,
        ("s 0 true 0 0 0 0 1 None", "", " l0", "", " 3:0 1:0 2:0"),
    ),
];

// The ids of a view and of its table.
fn push_view(out: &mut String, view: &SsTableView) -> Result<(), AllocError> {
    push_ulid(out, " ", view.id)?;
    let id = view.sst.id;
    if id.is_compacted() {
        push_ulid(out, ">", id.unwrap_compacted_id())?;
    }
    Ok(())
}

// The marker, the views of L0 and the runs.
fn push_tree(out: &mut String, tree: &LsmTreeState) -> Result<(), AllocError> {
    if let Some(id) = tree.last_compacted_l0_sst_view_id {
        push_ulid(out, "", id)?;
    }
    out.push_str(" l0")?;
    for view in tree.l0.as_deque().iter() {
        push_view(out, view)?;
    }
    for run in tree.compacted.as_slice() {
        let id = run.id;
        write!(out, " run {id}")?;
        for view in run.sst_views() {
            push_view(out, view)?;
        }
    }
    Ok(())
}

fn push_segment(out: &mut String, segment: &Segment) -> Result<(), AllocError> {
    let prefix = segment.prefix();
    write!(out, "{prefix:?} ")?;
    push_tree(out, segment.tree())?;
    out.push_str("; ")
}

fn push_checkpoint(out: &mut String, checkpoint: &Checkpoint) -> Result<(), AllocError> {
    let (id, version) = (checkpoint.id.as_u128(), checkpoint.manifest_id);
    let (expire, create) = (checkpoint.expire_time, checkpoint.create_time);
    let name = checkpoint.name.as_ref().map(|text| text.as_str());
    write!(out, "{id} {version} {expire:?} {create} {name:?}; ")
}

// The numbers and words of a database.
fn push_fields(out: &mut String, spec: &DbSpec) -> Result<(), AllocError> {
    let (path, modified) = (spec.path, spec.modified);
    let (writer, compactor) = (spec.manifest.writer_epoch, spec.manifest.compactor_epoch);
    let core = &spec.manifest.core;
    let initialized = core.initialized;
    write!(out, "{path} {modified} {initialized} {writer} {compactor}")?;
    let (floor, replay, next) = (core.floor, core.replay_after_wal_id, core.next_wal_sst_id);
    let extractor = core
        .segment_extractor_name
        .as_ref()
        .map(|name| name.as_str());
    write!(out, " {floor} {replay} {next} {extractor:?}")
}

fn has_fields(rt: &impl Abort, alloc: Global, spec: &DbSpec, text: &str) -> bool {
    let mut out = String::new(alloc);
    push_fields(&mut out, spec).expect(rt, "memory");
    is_text(out, text)
}

fn has_checkpoints(rt: &impl Abort, alloc: Global, spec: &DbSpec, text: &str) -> bool {
    let mut out = String::new(alloc);
    for checkpoint in spec.manifest.core.checkpoints.as_slice() {
        push_checkpoint(&mut out, checkpoint).expect(rt, "memory");
    }
    is_text(out, text)
}

fn has_tree(rt: &impl Abort, alloc: Global, spec: &DbSpec, text: &str) -> bool {
    let mut out = String::new(alloc);
    push_tree(&mut out, &spec.manifest.core.tree).expect(rt, "memory");
    is_text(out, text)
}

fn has_segments(rt: &impl Abort, alloc: Global, spec: &DbSpec, text: &str) -> bool {
    let mut out = String::new(alloc);
    for segment in spec.manifest.core.segments() {
        push_segment(&mut out, segment).expect(rt, "memory");
    }
    is_text(out, text)
}

fn has_tables(rt: &impl Abort, alloc: Global, spec: &DbSpec, text: &str) -> bool {
    let mut out = String::new(alloc);
    for table in spec.tables.as_slice() {
        push_ulid(&mut out, " ", table.0).expect(rt, "memory");
    }
    is_text(out, text)
}

fn info() -> SsTableInfo {
    SsTableInfo {
        first_entry: Some(Bytes::from_static(b"a")),
        last_entry: Some(Bytes::from_static(b"z")),
        index_offset: 0,
        index_len: 0,
        filter_offset: 0,
        filter_len: 0,
        compression_codec: CompressionTag::None,
        sst_type: SstType::Compacted,
        stats_offset: 0,
        stats_len: 0,
        filter_format: FilterFormat::Composite,
    }
}

// Whether this is what is known of a table.
fn is_known(found: &SsTableInfo) -> bool {
    let wanted = info();
    let same = found.is(&wanted);
    drop(wanted);
    same
}

// Whether a view shows all of a table of which this is known.
fn is_whole(view: &SsTableView) -> bool {
    view.visible_range().is_none() && view.sst.format_version == 1 && is_known(&view.sst.info)
}

fn are_whole(views: &[SsTableView]) -> bool {
    views.iter().all(|view| is_whole(view))
}

// Whether all views of a tree do.
fn has_whole_views(tree: &LsmTreeState) -> bool {
    let (one, other) = tree.l0.as_slices();
    are_whole(one)
        && are_whole(other)
        && tree
            .compacted
            .as_slice()
            .iter()
            .all(|run| are_whole(run.sst_views()))
}

// Whether all views and tables of a database are as they should be.
fn has_infos(spec: &DbSpec) -> bool {
    let core = &spec.manifest.core;
    has_whole_views(&core.tree)
        && core
            .segments()
            .iter()
            .all(|segment| has_whole_views(segment.tree()))
        && spec
            .tables
            .as_slice()
            .iter()
            .all(|table| is_known(&table.1))
}

// Whether a database has all that its text says.
fn is_read(rt: &impl Abort, alloc: Global, spec: &DbSpec, read: Read) -> bool {
    let (fields, checkpoints, tree, segments, tables) = read;
    has_fields(rt, alloc, spec, fields)
        && has_checkpoints(rt, alloc, spec, checkpoints)
        && has_tree(rt, alloc, spec, tree)
        && has_segments(rt, alloc, spec, segments)
        && has_tables(rt, alloc, spec, tables)
        && has_infos(spec)
}

// Whether an item is read as one database, with all that its text says.
fn reads(rt: &impl Abort, alloc: Global, item: &str, read: Read) -> bool {
    let script = script_within(rt, alloc, BEFORE, item, AFTER);
    let good = match script.databases.as_slice() {
        [spec] => is_read(rt, alloc, spec, read),
        _ => false,
    };
    drop(script);
    good
}

#[test]
fn databases_as_they_are_read(rt: HostRuntime) {
    for (item, read) in &DATABASES {
        assert!(rt; reads(&rt, rt.alloc(), item, *read), "at {item}");
    }
}

fn is_new(alloc: Global, spec: &DbSpec) -> bool {
    let new = Manifest::initial(alloc, ManifestCore::new(alloc));
    let same = spec.manifest.is(&new);
    drop(new);
    same
}

// Without optional fields a database has the manifest of a new one.
#[test]
fn a_database_with_its_path_alone(rt: HostRuntime) {
    let script = script_within(&rt, rt.alloc(), BEFORE, r#"{"path":"d"}"#, AFTER);
    let spec = script.databases.as_slice().first();
    assert!(rt; is_new(rt.alloc(), spec.expect(&rt, "a database")));
    drop(script);
}

/// Ids that are written in another way, and what they are.
const IDS: [(&str, &str); 4] = [
    ("0:0", " 0:0"),
    ("000:0000000000000000000000000000000000000000", " 0:0"),
    ("0012:0340", " 12:340"),
    (
        "281474976710655:1208925819614629174706175",
        " 281474976710655:1208925819614629174706175",
    ),
];

/// What stands before and after the id of a table of a run.
const BEFORE_ID: &str = r#"{"databases":[{"path":"d","runs":[{"id":1,"tables":[""#;

const AFTER_ID: &str = r#""]}]}],"events":[]}"#;

// Whether a table with an id that is written so stands under this one.
fn is_id(rt: &impl Abort, alloc: Global, written: &str, id: &str) -> bool {
    let script = script_within(rt, alloc, BEFORE_ID, written, AFTER_ID);
    let good = match script.databases.as_slice() {
        [spec] => has_tables(rt, alloc, spec, id),
        _ => false,
    };
    drop(script);
    good
}

#[test]
fn ids_as_they_are_written(rt: HostRuntime) {
    for (written, id) in &IDS {
        assert!(rt; is_id(&rt, rt.alloc(), written, id), "at {written}");
    }
}

/// Texts that are no ids.
const BAD_IDS: &[&str] = &[
    r#""""#,
    r#"":""#,
    r#""1""#,
    r#""1:""#,
    r#"":1""#,
    r#""1:1:1""#,
    r#""1:1:""#,
    r#""+1:1""#,
    r#""1:+1""#,
    r#""-1:1""#,
    r#""1:-1""#,
    r#"" 1:1""#,
    r#""1 :1""#,
    r#""1: 1""#,
    r#""1:1 ""#,
    r#""a:1""#,
    r#""1:0x1""#,
    r#""281474976710656:0""#,
    r#""0:1208925819614629174706176""#,
    r#""99999999999999999999999999999999999999999:0""#,
    "1",
    "null",
];

// The table as a slice: a function that names a table has all of it written out.
fn bad_ids() -> &'static [&'static str] {
    BAD_IDS
}

/// What stands before and after an id.
const AROUND_IDS: &[(&str, &str)] = &[
    (
        r#"{"databases":[{"path":"a","l0":[{"table":"1:1","view":"#,
        r#"}]}],"events":[]}"#,
    ),
    (
        r#"{"databases":[{"path":"a","l0":[{"view":"1:1","table":"#,
        r#"}]}],"events":[]}"#,
    ),
    (
        r#"{"databases":[{"path":"a","runs":[{"id":1,"tables":["1:1","#,
        r#"]}]}],"events":[]}"#,
    ),
    (
        r#"{"databases":[{"path":"a","markers":[{"view":"#,
        r#"}]}],"events":[]}"#,
    ),
    (
        r#"{"databases":[{"path":"a","strays":["1:1","#,
        r#"]}],"events":[]}"#,
    ),
    (
        r#"{"databases":[{"path":"a","record":{"epoch":0,"compactions":[{"status":"failed","views":[],"runs":[],"drain":true,"outputs":[],"id":"#,
        r#"}]}}],"events":[]}"#,
    ),
    (
        r#"{"databases":[{"path":"a","record":{"epoch":0,"compactions":[{"id":"1:1","status":"failed","runs":[],"drain":true,"outputs":[],"views":["#,
        r#"]}]}}],"events":[]}"#,
    ),
    (
        r#"{"databases":[{"path":"a","record":{"epoch":0,"compactions":[{"id":"1:1","status":"failed","views":[],"runs":[],"drain":true,"outputs":["1:1","#,
        r#"]}]}}],"events":[]}"#,
    ),
];

// The table as a slice: a function that names a table has all of it written out.
fn around_ids() -> &'static [(&'static str, &'static str)] {
    AROUND_IDS
}

#[test]
fn texts_that_are_no_ids(rt: HostRuntime) {
    let place = ScriptPlace::Database(0);
    for (before, after) in around_ids() {
        for id in bad_ids() {
            let bad = is_bad_within(&rt, rt.alloc(), before, id, after, place);
            assert!(rt; bad, "at {before}{id}");
        }
    }
}

/// What stands after databases where the first event is none.
const BEFORE_NO_EVENT: &str = r#"],"events":[0]}"#;

/// Databases of which one is none, with its place.
const BAD_DATABASES: &[(&str, u64)] = &[
    (r#"{}"#, 0),
    ("null", 0),
    (r#"["a"]"#, 0),
    (r#"{"path":"a"},{"path":"A"}"#, 1),
    (r#"{"path":"a"},{"path":"b"},{"modified":0}"#, 2),
    (r#"{"path":"a","modified":0.0}"#, 0),
    (r#"{"path":"a","modified":9223372036854775808}"#, 0),
    (r#"{"path":"a","checkpoints":null}"#, 0),
    (r#"{"path":"a","checkpoints":[{"name":"x"}]}"#, 0),
    (
        r#"{"path":"a","checkpoints":[{"id":18446744073709551616}]}"#,
        0,
    ),
    (r#"{"path":"a","checkpoints":[{"id":1,"expire":null}]}"#, 0),
    (r#"{"path":"a","checkpoints":[{"id":1,"lifetime":1}]}"#, 0),
];

// The table as a slice: a function that names a table has all of it written out.
fn bad_databases() -> &'static [(&'static str, u64)] {
    BAD_DATABASES
}

// A database that is none comes before an event that is none.
#[test]
fn databases_that_are_none(rt: HostRuntime) {
    for (items, place) in bad_databases() {
        let place = ScriptPlace::Database(*place);
        let bad = is_bad_within(&rt, rt.alloc(), BEFORE, items, BEFORE_NO_EVENT, place);
        assert!(rt; bad, "at {items}");
    }
}

/// Fields with which a database is none.
const BAD_FIELDS: &[&str] = &[
    r#""entries":[]"#,
    r#""wals":[]"#,
    r#""record":{}"#,
    r#""record":[]"#,
    r#""record":null"#,
    r#""record":{"epoch":0}"#,
    r#""record":{"compactions":[]}"#,
    r#""record":{"epoch":-1,"compactions":[]}"#,
    r#""record":{"epoch":"0","compactions":[]}"#,
    r#""record":{"epoch":0,"compactions":{}}"#,
    r#""record":{"epoch":0,"compactions":[0]}"#,
    r#""record":{"epoch":0,"compactions":[],"id":1}"#,
    r#""record":{"epoch":0,"compactions":[{"status":"submitted","views":[],"runs":[],"drain":true,"outputs":[]}]}"#,
    r#""record":{"epoch":0,"compactions":[{"id":"9:1","views":[],"runs":[],"drain":true,"outputs":[]}]}"#,
    r#""record":{"epoch":0,"compactions":[{"id":"9:1","status":"submitted","runs":[],"drain":true,"outputs":[]}]}"#,
    r#""record":{"epoch":0,"compactions":[{"id":"9:1","status":"submitted","views":[],"drain":true,"outputs":[]}]}"#,
    r#""record":{"epoch":0,"compactions":[{"id":"9:1","status":"submitted","views":[],"runs":[],"drain":true}]}"#,
    r#""record":{"epoch":0,"compactions":[{"id":"9:1","status":"submitted","views":[],"runs":[],"outputs":[]}]}"#,
    r#""record":{"epoch":0,"compactions":[{"id":"9:1","status":"submitted","views":[],"runs":[],"outputs":[],"drain":false}]}"#,
    r#""record":{"epoch":0,"compactions":[{"id":"9:1","status":"submitted","views":[],"runs":[],"outputs":[],"drain":null}]}"#,
    r#""record":{"epoch":0,"compactions":[{"id":"9:1","status":"submitted","views":[],"runs":[],"outputs":[],"drain":true,"destination":1}]}"#,
    r#""record":{"epoch":0,"compactions":[{"id":"9:1","status":"submitted","views":[],"runs":[],"outputs":[],"drain":false,"destination":1}]}"#,
    r#""record":{"epoch":0,"compactions":[{"id":"9:1","status":"submitted","views":[],"runs":[],"outputs":[],"destination":4294967296}]}"#,
    r#""record":{"epoch":0,"compactions":[{"id":"9:1","status":"submitted","views":[],"runs":[],"outputs":[],"destination":null}]}"#,
    r#""record":{"epoch":0,"compactions":[{"id":"9:1","status":"submitted","views":[],"runs":[],"outputs":[],"drain":true,"segment":1}]}"#,
    r#""record":{"epoch":0,"compactions":[{"id":"9:1","status":"submitted","views":[],"runs":[],"outputs":[],"drain":true,"worker":"1"}]}"#,
    r#""record":{"epoch":0,"compactions":[{"id":"9:1","status":"Submitted","views":[],"runs":[],"outputs":[],"drain":true}]}"#,
    r#""record":{"epoch":0,"compactions":[{"id":"9:1","status":0,"views":[],"runs":[],"outputs":[],"drain":true}]}"#,
    r#""record":{"epoch":0,"compactions":[{"id":"9:1","status":"submitted","views":["1"],"runs":[],"outputs":[],"drain":true}]}"#,
    r#""record":{"epoch":0,"compactions":[{"id":"9:1","status":"submitted","views":[],"runs":["1"],"outputs":[],"drain":true}]}"#,
    r#""record":{"epoch":0,"compactions":[{"id":"9:1","status":"submitted","views":[],"runs":[4294967296],"outputs":[],"drain":true}]}"#,
    r#""record":{"epoch":0,"compactions":[{"id":"9:1","status":"submitted","views":[],"runs":[],"outputs":[1],"drain":true}]}"#,
    r#""record":{"epoch":0,"compactions":[{"id":"9:1","status":"submitted","views":[],"runs":[],"outputs":"1:1","drain":true}]}"#,
    "\"record\":{\"epoch\":0,\"compactions\":[{\"id\":\"1:1\",\"status\":\"failed\",\"views\":[],\"runs\":[],\"outputs\":[],\"drain\":true},\
     {\"id\":\"01:1\",\"status\":\"failed\",\"views\":[],\"runs\":[],\"outputs\":[],\"drain\":true}]}",
    r#""more":0"#,
    r#""initialized":0"#,
    r#""initialized":"true""#,
    r#""initialized":null"#,
    r#""writer_epoch":-1"#,
    r#""writer_epoch":18446744073709551616"#,
    r#""writer_epoch":"1""#,
    r#""compactor_epoch":1.0"#,
    r#""compactor_epoch":null"#,
    r#""floor":-1"#,
    r#""floor":"0""#,
    r#""replay_after":1e2"#,
    r#""replay_after":true"#,
    r#""next_wal":-1"#,
    r#""next_wal":[1]"#,
    r#""extractor":1"#,
    r#""extractor":null"#,
    r#""l0":{}"#,
    r#""l0":null"#,
    r#""l0":[0]"#,
    r#""l0":[{"view":"1:1"}]"#,
    r#""l0":[{"table":"1:1"}]"#,
    r#""l0":[{"view":"1:1","table":"1:1","id":1}]"#,
    r#""l0":[{"prefix":1,"view":"1:1","table":"1:1"}]"#,
    r#""l0":[{"prefix":null,"view":"1:1","table":"1:1"}]"#,
    r#""runs":{}"#,
    r#""runs":[[]]"#,
    r#""runs":[{"id":1}]"#,
    r#""runs":[{"tables":[]}]"#,
    r#""runs":[{"id":-1,"tables":[]}]"#,
    r#""runs":[{"id":4294967296,"tables":[]}]"#,
    r#""runs":[{"id":"1","tables":[]}]"#,
    r#""runs":[{"id":1,"tables":"1:1"}]"#,
    r#""runs":[{"id":1,"tables":[],"view":"1:1"}]"#,
    r#""runs":[{"prefix":["a"],"id":1,"tables":[]}]"#,
    r#""markers":{}"#,
    r#""markers":["1:1"]"#,
    r#""markers":[{"prefix":"a"}]"#,
    r#""markers":[{"view":"1:1","table":"1:1"}]"#,
    r#""markers":[{"view":"1:1"},{"view":"1:1"}]"#,
    r#""markers":[{"prefix":"","view":"1:1"},{"prefix":"b","view":"1:1"},{"view":"2:1"}]"#,
    r#""markers":[{"prefix":"a","view":"1:1"},{"view":"2:1"},{"prefix":"a","view":"3:1"}]"#,
    r#""strays":{}"#,
    r#""strays":null"#,
    r#""strays":"1:1""#,
    r#""strays":[["1:1"]]"#,
    r#""strays":[{"table":"1:1"}]"#,
    r#""strays":[1]"#,
    r#""stray":[]"#,
];

// The table as a slice: a function that names a table has all of it written out.
fn bad_fields() -> &'static [&'static str] {
    BAD_FIELDS
}

/// What stands before and after fields of a database, where the first event is none.
const BEFORE_FIELDS: &str = r#"{"databases":[{"path":"b"},{"path":"a","#;

const AFTER_FIELDS: &str = r#"}],"events":[0]}"#;

// Whether a script whose second database has these fields is none for what is at this place.
fn is_bad(rt: &impl Abort, alloc: Global, fields: &str, place: ScriptPlace) -> bool {
    is_bad_within(rt, alloc, BEFORE_FIELDS, fields, AFTER_FIELDS, place)
}

#[test]
fn fields_that_are_none(rt: HostRuntime) {
    for fields in bad_fields() {
        let bad = is_bad(&rt, rt.alloc(), fields, ScriptPlace::Database(1));
        assert!(rt; bad, "at {fields}");
    }
}

/// What is no matter of reading: ids that come twice, prefixes that begin with others, a floor that is too low; and strays, also none.
const READ_FIELDS: &[&str] = &[
    r#""l0":[{"view":"1:1","table":"1:1"},{"view":"1:1","table":"1:1"}]"#,
    r#""runs":[{"id":1,"tables":["1:1","1:1"]},{"id":1,"tables":["1:1"]}]"#,
    r#""markers":[{"prefix":"a","view":"1:1"},{"prefix":"ab","view":"1:1"}]"#,
    r#""l0":[{"view":"1:1","table":"9:1"}],"floor":0"#,
    r#""checkpoints":[{"id":1},{"id":1}]"#,
    r#""record":{"epoch":9,"compactions":[{"id":"9:1","status":"running","views":[],"runs":[],"drain":true,"outputs":["1:1"]}]}"#,
    r#""next_wal":0"#,
    r#""extractor":"""#,
    r#""strays":[]"#,
    r#""l0":[{"view":"1:1","table":"1:1"}],"strays":["1:1","2:1","1:1"]"#,
];

// The table as a slice: a function that names a table has all of it written out.
fn read_fields() -> &'static [&'static str] {
    READ_FIELDS
}

#[test]
fn fields_that_are_read(rt: HostRuntime) {
    for fields in read_fields() {
        let bad = is_bad(&rt, rt.alloc(), fields, ScriptPlace::Event(0));
        assert!(rt; bad, "at {fields}");
    }
}
