//! An audit of a run by its events, its trail and its stores: both logs are chains of which nothing reachable is removed, epochs and least
//! ids don't fall, no party puts under an epoch that isn't its own, and the record has what compactors hold.

use crate::test_clusters::db;
use crate::test_counts::{Counts, Word, counted, one_more, word_of};
use crate::test_holdings::{
    Growth, Held, Statuses, check_finished, check_growth, check_pending, statuses_of,
};
use slate_ids::{DbPath, ObjectPath, SlateDBError};
use slate_layout::{decode_compactions, decode_manifest};
use slate_model::Manifest;
use slate_script::{Entry, Event, Reply};
use slate_store::{ListDir, Mark, MemoryStore, StoreAnswer, StoreCall};
use slate_txn_log::decode_boundary;
use std::alloc::Global;
use std::collections::BTreeMap;
use std::mem;
use std::process::Abort;

/// A run: its events, its trail, and the stores before and after it.
#[derive(Clone, Copy)]
pub(crate) struct Run<'a> {
    pub events: &'a [Event],
    pub trail: &'a [Entry],
    pub before: &'a MemoryStore,
    pub after: &'a MemoryStore,
}

// A party: its call, and the epoch of its last open that was done.
#[derive(Clone, Copy)]
struct Party {
    word: Word,
    epoch: Option<u64>,
}

// The two logs.
#[derive(Clone, Copy, PartialEq, Eq)]
enum Log {
    Manifests,
    Records,
}

// The path of a version.
fn path_of(log: Log, db: DbPath, number: u64) -> ObjectPath {
    match log {
        Log::Manifests => ObjectPath::Manifest(db, number),
        Log::Records => ObjectPath::Record(db, number),
    }
}

// The log and the number of a version's path.
fn version_of(path: &ObjectPath) -> Option<(Log, u64)> {
    match path {
        ObjectPath::Manifest(_, number) => Some((Log::Manifests, *number)),
        ObjectPath::Record(_, number) => Some((Log::Records, *number)),
        _ => None,
    }
}

// What the trail tells of a version.
#[derive(Clone, Copy)]
struct Version {
    // The place of the put that had its effect first; the opening ones have none.
    put: Option<usize>,
    // Whether an object is there now.
    stands: bool,
    // Whether a delete ever removed one.
    removed: bool,
}

// What the last versions of both logs say.
#[derive(Clone, Copy)]
struct Heads {
    writer_epoch: u64,
    compactor_epoch: u64,
    record_epoch: u64,
    // The milliseconds of the record's least id, where it has compactions.
    least: Option<u64>,
    // The statuses of the record's compactions.
    statuses: Statuses,
    // How many tables the trees have.
    tables: u64,
}

// What the trail tells, entry by entry.
#[derive(Drop)]
struct Audit {
    // The versions of each log from 1 up.
    manifests: Vec<Version>,
    records: Vec<Version>,
    // The greatest number of a manifest, and those that the checkpoints of its value name.
    reachable: Vec<u64>,
    // The numbers that were put late, by parties that have no reply yet.
    late: BTreeMap<u32, u64>,
    heads: Heads,
    parties: BTreeMap<u32, Party>,
    // The compactors by the epochs that their opens had.
    openers: BTreeMap<u64, u32>,
    held: Held,
    counts: Counts,
}

// The place of a version in a list from 1 up.
fn place_of(number: u64) -> Option<usize> {
    match number.checked_sub(1) {
        Some(place) => Some(place as usize),
        None => None,
    }
}

// A version, where it was committed.
fn version_at(versions: &[Version], number: u64) -> Option<Version> {
    match versions.get(place_of(number)?) {
        Some(version) => Some(*version),
        None => None,
    }
}

fn stands(versions: &[Version], number: u64) -> bool {
    match version_at(versions, number) {
        Some(version) => version.stands,
        None => false,
    }
}

fn is_removed(versions: &[Version], number: u64) -> bool {
    match version_at(versions, number) {
        Some(version) => version.removed,
        None => true,
    }
}

// An object was put or removed.
fn set_stands(versions: &mut [Version], number: u64, stands: bool) {
    if let Some(place) = place_of(number) {
        if let Some(version) = versions.get_mut(place) {
            version.stands = stands;
            version.removed = version.removed || !stands;
        }
    }
}

// Whether no reachable number is removed.
fn keeps(versions: &[Version], reachable: &[u64]) -> bool {
    for number in reachable {
        if is_removed(versions, *number) {
            return false;
        }
    }
    true
}

// The versions of a log.
fn versions_of(audit: &Audit, log: Log) -> &[Version] {
    match log {
        Log::Manifests => audit.manifests.as_slice(),
        Log::Records => audit.records.as_slice(),
    }
}

fn set_stands_in(audit: &mut Audit, log: Log, number: u64, stands: bool) {
    match log {
        Log::Manifests => set_stands(audit.manifests.as_mut_slice(), number, stands),
        Log::Records => set_stands(audit.records.as_mut_slice(), number, stands),
    }
}

// One version more.
fn push(rt: &impl Abort, audit: &mut Audit, log: Log, put: Option<usize>) {
    let version = Version {
        put,
        stands: true,
        removed: false,
    };
    match log {
        Log::Manifests => audit.manifests.push(version).expect(rt, "memory"),
        Log::Records => audit.records.push(version).expect(rt, "memory"),
    }
}

fn party_of(audit: &Audit, party: u32) -> Party {
    match audit.parties.get(&party) {
        Some(found) => *found,
        None => Party {
            word: Word::Other,
            epoch: None,
        },
    }
}

fn set_party(rt: &impl Abort, audit: &mut Audit, party: u32, with: Party) {
    let inserted: Result<_, _> = audit.parties.insert(party, with);
    inserted.expect(rt, "memory");
}

// What is reachable from a greatest version: its number, and those that its checkpoints name.
fn reachable_from(rt: &impl Abort, alloc: Global, number: u64, manifest: &Manifest) -> Vec<u64> {
    let mut reachable = Vec::new(alloc);
    for checkpoint in manifest.core.checkpoints.as_slice() {
        reachable.push(checkpoint.manifest_id).expect(rt, "memory");
    }
    reachable.push(number).expect(rt, "memory");
    reachable
}

// How many tables the trees of a manifest have.
fn tables_of(manifest: &Manifest) -> u64 {
    let mut tables = 0u64;
    for _ in manifest.core.views() {
        tables = tables.saturating_add(1);
    }
    tables
}

// The epochs of writers and compactors don't fall.
fn raise(rt: &impl Abort, heads: &mut Heads, writer: u64, compactor: u64) {
    assert!(rt; writer >= heads.writer_epoch, "a writer epoch fell");
    assert!(rt;
        compactor >= heads.compactor_epoch,
        "a compactor epoch fell"
    );
    heads.writer_epoch = writer;
    heads.compactor_epoch = compactor;
}

// A manifest is committed.
fn commit_manifest(rt: &impl Abort, alloc: Global, audit: &mut Audit, number: u64, bytes: &[u8]) {
    let manifest = decode_manifest(alloc, bytes).expect(rt, "a manifest");
    let reachable = reachable_from(rt, alloc, number, &manifest);
    let tables = tables_of(&manifest);
    let (writer, compactor) = (manifest.writer_epoch, manifest.compactor_epoch);
    drop(manifest);
    drop(mem::replace(&mut audit.reachable, reachable));
    audit.heads.tables = tables;
    raise(rt, &mut audit.heads, writer, compactor);
}

// The epoch of a record, the milliseconds of its least id, and the statuses of its compactions.
fn record_of(rt: &impl Abort, alloc: Global, bytes: &[u8]) -> (u64, Option<u64>, Statuses) {
    let record = decode_compactions(alloc, bytes).expect(rt, "a record");
    let least = match record.least_id() {
        Some(id) => Some(id.timestamp_ms()),
        None => None,
    };
    let epoch = record.compactor_epoch;
    let statuses = statuses_of(rt, &record);
    drop(record);
    (epoch, least, statuses)
}

// Whether the least id may follow the last one: a record with compactions keeps one, and the least doesn't fall.
fn may_follow(last: Option<u64>, least: Option<u64>) -> bool {
    match last {
        None => true,
        Some(last) => match least {
            None => false,
            Some(least) => last <= least,
        },
    }
}

// A record is committed: its epoch doesn't fall, nor does its least id, and the manifest has that epoch or a greater one.
fn commit_record(rt: &impl Abort, alloc: Global, heads: &mut Heads, bytes: &[u8]) {
    let (epoch, least, statuses) = record_of(rt, alloc, bytes);
    assert!(rt; epoch >= heads.record_epoch, "the epoch of a record fell");
    assert!(rt;
        epoch <= heads.compactor_epoch,
        "a record is ahead of the manifest"
    );
    assert!(rt; may_follow(heads.least, least), "the least id fell");
    heads.record_epoch = epoch;
    heads.least = least;
    heads.statuses = statuses;
}

// The next version of a log is committed, at a place of the trail where it is put.
fn commit(
    rt: &impl Abort,
    alloc: Global,
    audit: &mut Audit,
    log: Log,
    put: Option<usize>,
    bytes: &[u8],
) {
    push(rt, audit, log, put);
    let number = versions_of(audit, log).len() as u64;
    match log {
        Log::Manifests => commit_manifest(rt, alloc, audit, number, bytes),
        Log::Records => commit_record(rt, alloc, &mut audit.heads, bytes),
    }
}

// The epoch of compactors in the last version of a log.
fn compactor_epoch_in(heads: Heads, log: Log) -> u64 {
    match log {
        Log::Manifests => heads.compactor_epoch,
        Log::Records => heads.record_epoch,
    }
}

// Whether a party may have put the last version of a log: but for an open it has the party's own epoch.
fn is_own(party: Party, heads: Heads, log: Log) -> bool {
    match party.word {
        Word::Manifest | Word::Record | Word::State | Word::Schedule => {
            party.epoch == Some(compactor_epoch_in(heads, log))
        }
        Word::Flush => log == Log::Manifests && party.epoch == Some(heads.writer_epoch),
        Word::Claim | Word::Report => log == Log::Records,
        Word::Finish => false,
        Word::OpenCompactor => true,
        Word::RecordPass | Word::Other => log == Log::Manifests,
    }
}

// A number that was committed and collected is put by a party: it is late.
fn put_late(rt: &impl Abort, audit: &mut Audit, party: u32, version: (Log, u64)) {
    let (log, number) = version;
    set_stands_in(audit, log, number, true);
    if log == Log::Records {
        one_more(&mut audit.counts.late_records);
    }
    let inserted: Result<_, _> = audit.late.insert(party, number);
    inserted.expect(rt, "memory");
}

// A record is put by a call on the last one, whose epoch and statuses were these.
fn put_record(rt: &impl Abort, audit: &mut Audit, word: Word, last: Heads) {
    let new = audit.heads.statuses;
    let growth = Growth {
        old: last.statuses,
        new,
        word,
        raises: last.record_epoch < audit.heads.record_epoch,
    };
    check_growth(rt, &mut audit.counts, &growth);
    if audit.held.leads(audit.heads.compactor_epoch) {
        check_pending(rt, &mut audit.counts, &audit.held, &new);
    }
}

// The next number is put by a party, at a place of the trail.
fn put_next(
    rt: &impl Abort,
    alloc: Global,
    audit: &mut Audit,
    at: (usize, u32),
    log: Log,
    bytes: &[u8],
) {
    let last = audit.heads;
    commit(rt, alloc, audit, log, Some(at.0), bytes);
    let party = party_of(audit, at.1);
    assert!(rt; is_own(party, audit.heads, log), "another party's epoch");
    if log == Log::Records {
        put_record(rt, audit, party.word, last);
    }
}

// A put has its effect: of the next number it commits, and of one that was committed and collected it is late.
fn put(
    rt: &impl Abort,
    alloc: Global,
    audit: &mut Audit,
    at: (usize, u32),
    version: (Log, u64),
    bytes: &[u8],
) {
    let greatest = versions_of(audit, version.0).len() as u64;
    if version.1 <= greatest {
        put_late(rt, audit, at.1, version);
    } else {
        let next = greatest.saturating_add(1);
        assert!(rt; version.1 == next, "a number was left out");
        put_next(rt, alloc, audit, at, version.0, bytes);
    }
}

fn is_created(answer: &StoreAnswer) -> bool {
    matches!(answer, StoreAnswer::Created(Some(_)))
}

// A version is put, at a place of the trail, by a party. A good put is created exactly where its number doesn't stand.
fn puts(
    rt: &impl Abort,
    alloc: Global,
    audit: &mut Audit,
    at: (usize, u32),
    version: (Log, u64),
    bytes: &[u8],
    told: (Mark, bool),
) {
    let (mark, created) = told;
    let there = stands(versions_of(audit, version.0), version.1);
    let effective = mark != Mark::Fail && !there;
    assert!(rt; created == (effective && mark == Mark::Good), "a put");
    if effective {
        put(rt, alloc, audit, at, version, bytes);
    }
}

fn deletes(audit: &mut Audit, version: (Log, u64), mark: Mark) {
    let (log, number) = version;
    if mark != Mark::Fail && stands(versions_of(audit, log), number) {
        set_stands_in(audit, log, number, false);
    }
}

// A party lists a folder. Where it writes its whole state, and lists the records, its manifest is there.
fn lists(audit: &mut Audit, party: u32, folder: &ListDir) {
    if matches!(folder, ListDir::Records(_)) && party_of(audit, party).word == Word::State {
        audit.held.writes(party);
    }
}

// What a store call does to the versions, at a place of the trail, by a party, with its mark and whether it created.
fn called(
    rt: &impl Abort,
    alloc: Global,
    audit: &mut Audit,
    at: (usize, u32),
    call: &StoreCall,
    told: (Mark, bool),
) {
    match call {
        StoreCall::List(folder) => lists(audit, at.1, folder),
        StoreCall::PutNew(path, bytes) => match version_of(path) {
            Some(version) => puts(rt, alloc, audit, at, version, bytes.as_slice(), told),
            None => {}
        },
        StoreCall::Delete(path) => match version_of(path) {
            Some(version) => deletes(audit, version, told.0),
            None => {}
        },
        _ => {}
    }
}

// Whether a refusal of a late put is the boundary's; none where its answers were lost.
fn is_bounded(number: u64, refusal: &SlateDBError) -> Option<bool> {
    match refusal {
        SlateDBError::StoreFault => None,
        SlateDBError::TransactionalObjectVersionExists {
            number: refused,
            boundary,
        } => match boundary {
            Some(boundary) => Some(*refused == number && number <= *boundary),
            None => Some(false),
        },
        _ => Some(false),
    }
}

// A late put is never done: the boundary answers it, or its answer or the boundary's is lost.
fn answered_late(number: u64, reply: &Reply) -> Option<bool> {
    match reply {
        Reply::Refused(refusal) => is_bounded(number, refusal),
        _ => Some(false),
    }
}

// The reply of a party that may have put late.
fn bounded(rt: &impl Abort, audit: &mut Audit, party: u32, reply: &Reply) {
    if let Some(number) = audit.late.remove(&party) {
        let bounded = answered_late(number, reply);
        assert!(rt; bounded != Some(false), "a late put was done");
        if bounded == Some(true) {
            one_more(&mut audit.counts.late_puts);
        }
    }
}

// Whether another party had an epoch of compactors before.
fn has_rival(audit: &Audit, party: u32) -> bool {
    let mut rival = false;
    for opener in audit.openers.values() {
        rival = rival || *opener != party;
    }
    rival
}

// An open of a compactor is done with an epoch that no open had before. It is at most that of the greatest record, and this is at most that
// of the greatest manifest.
fn opened(rt: &impl Abort, audit: &mut Audit, party: u32, epoch: u64) {
    let heads = audit.heads;
    assert!(rt; epoch <= heads.record_epoch, "the record is behind an open");
    assert!(rt;
        heads.record_epoch <= heads.compactor_epoch,
        "the manifest is behind the record"
    );
    assert!(rt;
        audit.openers.get(&epoch).is_none(),
        "two opens of one epoch"
    );
    if heads.statuses.has_some() && has_rival(audit, party) {
        one_more(&mut audit.counts.rivals);
    }
    let inserted: Result<_, _> = audit.openers.insert(epoch, party);
    inserted.expect(rt, "memory");
    audit.held.opens(party, epoch);
}

// A compaction is finished by a party.
fn finished(rt: &impl Abort, audit: &mut Audit, party: u32) {
    let heads = audit.heads;
    if audit.held.is_led_by(party) && audit.held.leads(heads.compactor_epoch) {
        check_finished(rt, &mut audit.counts, &mut audit.held, &heads.statuses);
    }
}

// A call of this party is done.
fn done(rt: &impl Abort, audit: &mut Audit, party: u32, word: Word) {
    match word {
        Word::Finish => finished(rt, audit, party),
        Word::Manifest => audit.held.writes(party),
        _ => {}
    }
}

// An open of this party is done.
fn epoch_replied(rt: &impl Abort, audit: &mut Audit, party: u32, word: Word, number: u64) {
    let epoch = Some(number);
    set_party(rt, audit, party, Party { word, epoch });
    if word == Word::OpenCompactor {
        opened(rt, audit, party, number);
    }
}

// The reply of a call of this party.
fn replied(rt: &impl Abort, audit: &mut Audit, party: u32, reply: &Reply) {
    let Party { word, epoch: _ } = party_of(audit, party);
    counted(&mut audit.counts, word, reply);
    match reply {
        Reply::Epoch(number) => epoch_replied(rt, audit, party, word, *number),
        Reply::Done => done(rt, audit, party, word),
        _ => {}
    }
}

// A party starts a call.
fn started(rt: &impl Abort, audit: &mut Audit, party: u32, event: &Event) {
    if let Event::Start { call, .. } = event {
        let word = word_of(call.get());
        audit.held.starts(call.get());
        let epoch = party_of(audit, party).epoch;
        set_party(rt, audit, party, Party { word, epoch });
    }
}

// No reachable manifest is removed, nor the greatest record.
fn check_reachable(rt: &impl Abort, audit: &Audit) {
    let records = audit.records.as_slice();
    assert!(rt; keeps(audit.manifests.as_slice(), audit.reachable.as_slice()));
    assert!(rt; keeps(records, &[records.len() as u64]) || records.is_empty());
}

// Takes an event and its entry, after which no reachable number is removed.
fn entered(
    rt: &impl Abort,
    alloc: Global,
    audit: &mut Audit,
    place: usize,
    event: &Event,
    entry: &Entry,
) {
    match entry {
        Entry::Started { party, reply } => {
            started(rt, audit, *party, event);
            if let Some(reply) = reply {
                replied(rt, audit, *party, reply);
            }
        }
        Entry::Called {
            party,
            call,
            mark,
            answer,
            reply,
            ..
        } => {
            let told = (*mark, is_created(answer));
            called(rt, alloc, audit, (place, *party), call, told);
            if let Some(reply) = reply {
                bounded(rt, audit, *party, reply);
                replied(rt, audit, *party, reply);
            }
            check_reachable(rt, audit);
        }
        _ => {}
    }
}

// Takes the first version of a log, where the database has one.
fn begin(rt: &impl Abort, alloc: Global, audit: &mut Audit, before: &MemoryStore, log: Log) {
    let path = path_of(log, db(rt), 1);
    let first = before.object(&path);
    drop(path);
    if let Some(object) = first {
        commit(rt, alloc, audit, log, None, object.bytes.as_slice());
    }
}

// Whether an object of a store has these bytes.
fn has_bytes(store: &MemoryStore, path: &ObjectPath, bytes: &[u8]) -> bool {
    match store.object(path) {
        Some(object) => object.bytes.as_slice() == bytes,
        None => false,
    }
}

// Whether the put at a place of the trail has these bytes.
fn puts_bytes(trail: &[Entry], place: usize, bytes: &[u8]) -> bool {
    match trail.get(place) {
        Some(Entry::Called { call, .. }) => match call {
            StoreCall::PutNew(_, first) => first.as_slice() == bytes,
            _ => false,
        },
        _ => false,
    }
}

// A number has an object in the store exactly where it stands, and one that was never removed has the bytes that were put first.
fn is_as_told(version: Version, path: &ObjectPath, run: Run<'_>) -> bool {
    let Some(object) = run.after.object(path) else {
        return !version.stands;
    };
    let bytes = object.bytes.as_slice();
    let first = match version.put {
        None => has_bytes(run.before, path, bytes),
        Some(place) => puts_bytes(run.trail, place, bytes),
    };
    version.stands && (version.removed || first)
}

// Whether each version of a log is as it was told, and none stands after them.
fn is_chain(rt: &impl Abort, log: Log, versions: &[Version], run: Run<'_>) -> bool {
    let mut good = true;
    let mut number = 1u64;
    for version in versions {
        let path = path_of(log, db(rt), number);
        good = good && is_as_told(*version, &path, run);
        drop(path);
        number = number.saturating_add(1);
    }
    let path = path_of(log, db(rt), number);
    let none = run.after.object(&path).is_none();
    drop(path);
    good && none
}

// The path of a log's boundary.
fn boundary_path(log: Log, db: DbPath) -> ObjectPath {
    match log {
        Log::Manifests => ObjectPath::ManifestBoundary(db),
        Log::Records => ObjectPath::RecordBoundary(db),
    }
}

// The boundary of a log, or 0 where there is none.
fn boundary(rt: &impl Abort, log: Log, store: &MemoryStore) -> u64 {
    let path = boundary_path(log, db(rt));
    let object = store.object(&path);
    drop(path);
    match object {
        None => 0,
        Some(object) => decode_boundary(object.bytes.as_slice()).expect(rt, "a boundary"),
    }
}

// Whether the boundary is below the greatest number, where there is one, and at or above each removed one.
fn bounds(versions: &[Version], boundary: u64) -> bool {
    let mut good = boundary < versions.len() as u64 || (boundary == 0 && versions.is_empty());
    let mut number = 1u64;
    for version in versions {
        good = good && (number <= boundary || !version.removed);
        number = number.saturating_add(1);
    }
    good
}

// An audit that has taken the first versions of a store.
fn begun(rt: &impl Abort, alloc: Global, before: &MemoryStore, counts: Counts) -> Audit {
    let mut audit = Audit {
        manifests: Vec::new(alloc),
        records: Vec::new(alloc),
        reachable: Vec::new(alloc),
        late: BTreeMap::new(alloc),
        heads: Heads {
            writer_epoch: 0,
            compactor_epoch: 0,
            record_epoch: 0,
            least: None,
            statuses: Statuses::new(),
            tables: 0,
        },
        parties: BTreeMap::new(alloc),
        openers: BTreeMap::new(alloc),
        held: Held::new(),
        counts,
    };
    begin(rt, alloc, &mut audit, before, Log::Manifests);
    begin(rt, alloc, &mut audit, before, Log::Records);
    audit
}

// The boundary of a log is as its versions allow, and each of them is as it was told.
fn check_log(rt: &impl Abort, log: Log, versions: &[Version], run: Run<'_>) {
    let found = boundary(rt, log, run.after);
    assert!(rt; bounds(versions, found), "the boundary");
    assert!(rt; is_chain(rt, log, versions, run));
}

// The end of an audit, and what was counted.
fn ended(rt: &impl Abort, audit: Audit, run: Run<'_>) -> Counts {
    check_reachable(rt, &audit);
    check_log(rt, Log::Manifests, audit.manifests.as_slice(), run);
    check_log(rt, Log::Records, audit.records.as_slice(), run);
    let mut counts = audit.counts;
    counts.tables = counts.tables.saturating_add(audit.heads.tables);
    drop(audit);
    counts
}

/// Audits a run over the database `db`, and counts on. Each put of a version that had its effect is of the next number of its log, or of
/// one that was collected, and then it isn't done. After each entry no manifest is removed that is the greatest committed one or that a
/// checkpoint of its value names, nor the greatest record. Epochs never fall, the record's is never above that of the manifest, and a record
/// with compactions keeps some, whose least id never falls. But for opens, a compactor and a writer put under the epoch of their last open
/// alone. An entry of a record goes, or is Compacted no more, only by a reset or by a compactor's statuses. No two opens of compactors have
/// one epoch, and that of an open which is done is at most the record's. Where the epoch of a compactor is that of the greatest manifest,
/// what it finishes is Compacted in the greatest record, which has an entry of it until a manifest has it. At the end, of each log, each version that was never removed stands as it was put first, none stands after them, and the boundary
/// is below the greatest number and at or above each removed one.
pub(crate) fn audited(rt: &impl Abort, alloc: Global, run: Run<'_>, counts: Counts) -> Counts {
    let mut audit = begun(rt, alloc, run.before, counts);
    let mut place = 0usize;
    for (event, entry) in run.events.iter().zip(run.trail) {
        entered(rt, alloc, &mut audit, place, event, entry);
        place = place.saturating_add(1);
    }
    ended(rt, audit, run)
}
