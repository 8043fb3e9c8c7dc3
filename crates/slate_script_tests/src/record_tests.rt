//! First records of scripts.

use crate::test_scripts::{is_text, push_ulid, script_of, script_within, text_of};
use slate_model::{Compaction, CompactionSpec, Compactions, SourceId, SsTableId};
use slate_script::DbSpec;
use std::alloc::{AllocError, Global};
use std::process::Abort;

/// What stands before a record, and after it.
const BEFORE: &str =
    r#"{"databases":[{"path":"db","runs":[{"id":1,"tables":["7:7","9:2"]}],"record":"#;

const AFTER: &str = r#","strays":["8:8","10:1"]}],"events":[]}"#;

/// Records, with what they are, and with the tables that stand beside those of the run and the strays, each once. Compactions ascend by id;
/// views come before runs.
const RECORDS: [(&str, &str, &str); 3] = [
    (
        r#"{"epoch":18446744073709551615,"compactions":[]}"#,
        "18446744073709551615",
        "",
    ),
    (
        r#"{"epoch":3,"compactions":[
{"outputs":["9:2","9:3","9:2"],"id":"9:1","status":"completed","segment":"ab","runs":[4,2],"views":["5:1","3:1"],"destination":4294967295},
{"id":"08:0","status":"running","views":[],"runs":[],"drain":true,"outputs":[]},
{"id":"9:0","status":"compacted","views":["1:1"],"runs":[7],"destination":0,"outputs":["10:1"]}]}"#,
        "3; 8:0 Running b\"\" drains from to; 9:0 Compacted b\"\" run 0 from 1:1 #7 to 10:1; 9:1 Completed b\"ab\" run 4294967295 from 5:1 3:1 #4 #2 to 9:2 9:3 9:2",
        " 9:3",
    ),
    (
        r#"{"epoch":0,"compactions":[
{"id":"1:1","status":"submitted","views":[],"runs":[],"drain":true,"outputs":[]},
{"id":"1:2","status":"scheduled","views":[],"runs":[],"drain":true,"outputs":[]},
{"id":"1:3","status":"failed","views":[],"runs":[],"drain":true,"outputs":[]}]}"#,
        "0; 1:1 Submitted b\"\" drains from to; 1:2 Scheduled b\"\" drains from to; 1:3 Failed b\"\" drains from to",
        "",
    ),
];

fn push_source(out: &mut String, source: &SourceId) -> Result<(), AllocError> {
    match source {
        SourceId::SstView(id) => push_ulid(out, " ", *id),
        SourceId::SortedRun(id) => write!(out, " #{id}"),
    }
}

fn push_spec(out: &mut String, spec: &CompactionSpec) -> Result<(), AllocError> {
    let segment = spec.segment();
    write!(out, " {segment:?}")?;
    match spec {
        CompactionSpec::Tiered { destination, .. } => write!(out, " run {destination}")?,
        CompactionSpec::DrainSegment { .. } => out.push_str(" drains")?,
    }
    out.push_str(" from")?;
    for source in spec.sources() {
        push_source(out, source)?;
    }
    Ok(())
}

fn push_table(out: &mut String, table: SsTableId) -> Result<(), AllocError> {
    match table {
        SsTableId::Compacted(id) => push_ulid(out, " ", id),
        SsTableId::Wal(number) => write!(out, " wal {number}"),
    }
}

fn push_compaction(out: &mut String, compaction: &Compaction) -> Result<(), AllocError> {
    push_ulid(out, "; ", compaction.id)?;
    let status = compaction.status;
    write!(out, " {status:?}")?;
    push_spec(out, &compaction.spec)?;
    out.push_str(" to")?;
    for sst in compaction.output_ssts.as_slice() {
        push_table(out, sst.id)?;
    }
    Ok(())
}

fn push_record(out: &mut String, record: &Compactions) -> Result<(), AllocError> {
    let epoch = record.compactor_epoch;
    write!(out, "{epoch}")?;
    for compaction in record.iter() {
        push_compaction(out, compaction)?;
    }
    Ok(())
}

// Whether the database has this record.
fn has_record(rt: &impl Abort, alloc: Global, spec: &DbSpec, text: &str) -> bool {
    let mut out = String::new(alloc);
    if let Some(record) = &spec.compactions {
        push_record(&mut out, record).expect(rt, "memory");
    }
    is_text(out, text)
}

// Whether these tables stand in the store, after those of the run and the strays.
fn has_outputs(rt: &impl Abort, alloc: Global, spec: &DbSpec, text: &str) -> bool {
    let mut out = String::new(alloc);
    for table in spec.tables.as_slice() {
        push_ulid(&mut out, " ", table.0).expect(rt, "memory");
    }
    let wanted = text_of(rt, alloc, " 7:7 9:2 8:8 10:1", text, "");
    let same = is_text(out, wanted.as_str());
    drop(wanted);
    same
}

// Whether the one database has this record and these tables.
fn reads(rt: &impl Abort, alloc: Global, record: &str, wanted: &str, tables: &str) -> bool {
    let script = script_within(rt, alloc, BEFORE, record, AFTER);
    let good = match script.databases.as_slice() {
        [spec] => has_record(rt, alloc, spec, wanted) && has_outputs(rt, alloc, spec, tables),
        _ => false,
    };
    drop(script);
    good
}

#[test]
fn records_as_they_are_read(rt: HostRuntime) {
    for (record, wanted, tables) in &RECORDS {
        let good = reads(&rt, rt.alloc(), record, wanted, tables);
        assert!(rt; good, "at {record}");
    }
}

const NEW: &str = r#"{"databases":[{"path":"a"}],"events":[]}"#;

#[test]
fn a_database_without_a_record(rt: HostRuntime) {
    let script = script_of(&rt, rt.alloc(), NEW);
    let spec = script.databases.as_slice().first();
    assert!(rt; spec.expect(&rt, "a database").compactions.is_none());
    drop(script);
}
