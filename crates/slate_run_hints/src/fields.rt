//! The fields of a script, a table for each kind of object, and the calls of each kind of party: a later field, object or call is a line here.

use crate::fields::Holds::{Each, Nested, Objects, One};
use crate::fields::Presence::{Fresh, Needed, Optional};
use crate::name::Name;
use crate::plain::Plain;
use slate_script_events::PartyKind;

/// What a field holds.
#[derive(Clone, Copy, Debug, Drop)]
pub(crate) enum Holds {
    /// A plain value.
    One(Plain),
    /// An array of plain values.
    Each(Plain),
    /// An array of objects.
    Objects(Object),
    /// An object.
    Nested(Object),
}

/// Whether a field has to be there.
#[derive(Clone, Copy, Debug, Drop, PartialEq, Eq)]
pub(crate) enum Presence {
    Needed,
    /// It has to be there, and is an id that nothing carried before.
    Fresh,
    Optional,
}

/// A field of an object.
#[derive(Clone, Copy, Debug, Drop)]
pub(crate) struct Field(pub Name, pub Presence, pub Holds);

/// The kinds of objects in a script.
#[derive(Clone, Copy, Debug, Drop)]
pub(crate) enum Object {
    Whole,
    Database,
    L0,
    Run,
    Marker,
    Checkpoint,
    Record,
    Compaction,
    Open,
    Step,
    Stop,
    /// A start of a call with no field of its own.
    Bare,
    Upload,
    Flush,
    FlushTable,
    /// A start of a call that has just the id of a compaction.
    OfCompaction,
    /// A start of a call that has just a new checkpoint.
    UnderCheckpoint,
    Report,
    WriteCheckpoint,
    ReplaceCheckpoint,
    RefreshCheckpoint,
    DeleteCheckpoint,
    Pass,
}

static WHOLE: [Field; 2] = [
    Field(Name::Databases, Needed, One(Plain::List)),
    Field(Name::Events, Needed, One(Plain::List)),
];

static DATABASE: [Field; 15] = [
    Field(Name::Path, Needed, One(Plain::Path)),
    Field(Name::Modified, Optional, One(Plain::Moment)),
    Field(Name::Initialized, Optional, One(Plain::Flag)),
    Field(Name::WriterEpoch, Optional, One(Plain::Whole64)),
    Field(Name::CompactorEpoch, Optional, One(Plain::Whole64)),
    Field(Name::Floor, Optional, One(Plain::Whole64)),
    Field(Name::ReplayAfter, Optional, One(Plain::Whole64)),
    Field(Name::NextWal, Optional, One(Plain::Whole64)),
    Field(Name::Extractor, Optional, One(Plain::Text)),
    Field(Name::L0, Optional, Objects(Object::L0)),
    Field(Name::Runs, Optional, Objects(Object::Run)),
    Field(Name::Markers, Optional, Objects(Object::Marker)),
    Field(Name::Checkpoints, Optional, Objects(Object::Checkpoint)),
    Field(Name::Record, Optional, Nested(Object::Record)),
    Field(Name::Strays, Optional, Each(Plain::Id)),
];

static L0: [Field; 3] = [
    Field(Name::Prefix, Optional, One(Plain::Text)),
    Field(Name::View, Needed, One(Plain::Id)),
    Field(Name::Table, Needed, One(Plain::Id)),
];

static RUN: [Field; 3] = [
    Field(Name::Prefix, Optional, One(Plain::Text)),
    Field(Name::Id, Needed, One(Plain::Whole32)),
    Field(Name::Tables, Needed, Each(Plain::Id)),
];

static MARKER: [Field; 2] = [
    Field(Name::Prefix, Optional, One(Plain::Text)),
    Field(Name::View, Needed, One(Plain::Id)),
];

static CHECKPOINT: [Field; 3] = [
    Field(Name::Id, Needed, One(Plain::Checkpoint)),
    Field(Name::Expire, Optional, One(Plain::Moment)),
    Field(Name::Name, Optional, One(Plain::Text)),
];

static RECORD: [Field; 2] = [
    Field(Name::Epoch, Needed, One(Plain::Whole64)),
    Field(Name::Compactions, Needed, Objects(Object::Compaction)),
];

static COMPACTION: [Field; 8] = [
    Field(Name::Id, Needed, One(Plain::Id)),
    Field(Name::Status, Needed, One(Plain::Status)),
    Field(Name::Segment, Optional, One(Plain::Text)),
    Field(Name::Views, Needed, Each(Plain::Id)),
    Field(Name::Runs, Needed, Each(Plain::Whole32)),
    Field(Name::Destination, Optional, One(Plain::Whole32)),
    Field(Name::Drain, Optional, One(Plain::Drain)),
    Field(Name::Outputs, Needed, Each(Plain::Id)),
];

static OPEN: [Field; 3] = [
    Field(Name::Open, Needed, One(Plain::Whole32)),
    Field(Name::Kind, Needed, One(Plain::Kind)),
    Field(Name::Db, Needed, One(Plain::Path)),
];

static STEP: [Field; 4] = [
    Field(Name::Step, Needed, One(Plain::Whole32)),
    Field(Name::At, Needed, One(Plain::Moment)),
    Field(Name::Mark, Optional, One(Plain::Mark)),
    Field(Name::Times, Optional, One(Plain::Times)),
];

static STOP: [Field; 1] = [Field(Name::Stop, Needed, One(Plain::Whole32))];

static BARE: [Field; 2] = [
    Field(Name::Start, Needed, One(Plain::Whole32)),
    Field(Name::Call, Needed, One(Plain::CallName)),
];

static UPLOAD: [Field; 5] = [
    Field(Name::Start, Needed, One(Plain::Whole32)),
    Field(Name::Call, Needed, One(Plain::CallName)),
    Field(Name::Table, Fresh, One(Plain::Id)),
    Field(Name::First, Optional, One(Plain::Text)),
    Field(Name::Last, Optional, One(Plain::Text)),
];

static FLUSH: [Field; 7] = [
    Field(Name::Start, Needed, One(Plain::Whole32)),
    Field(Name::Call, Needed, One(Plain::CallName)),
    Field(Name::Tables, Needed, Objects(Object::FlushTable)),
    Field(Name::ReplayAfter, Optional, One(Plain::Whole64)),
    Field(Name::NextWal, Optional, One(Plain::Whole64)),
    Field(Name::Seq, Optional, One(Plain::Whole64)),
    Field(Name::Tick, Optional, One(Plain::Moment)),
];

static FLUSH_TABLE: [Field; 3] = [
    Field(Name::Table, Needed, One(Plain::Id)),
    Field(Name::View, Fresh, One(Plain::Id)),
    Field(Name::Prefix, Optional, One(Plain::Text)),
];

static OF_COMPACTION: [Field; 3] = [
    Field(Name::Start, Needed, One(Plain::Whole32)),
    Field(Name::Call, Needed, One(Plain::CallName)),
    Field(Name::Id, Needed, One(Plain::Id)),
];

static UNDER_CHECKPOINT: [Field; 3] = [
    Field(Name::Start, Needed, One(Plain::Whole32)),
    Field(Name::Call, Needed, One(Plain::CallName)),
    Field(Name::Checkpoint, Fresh, One(Plain::Checkpoint)),
];

static REPORT: [Field; 4] = [
    Field(Name::Start, Needed, One(Plain::Whole32)),
    Field(Name::Call, Needed, One(Plain::CallName)),
    Field(Name::Id, Needed, One(Plain::Id)),
    Field(Name::Tables, Needed, Each(Plain::Id)),
];

static WRITE_CHECKPOINT: [Field; 6] = [
    Field(Name::Start, Needed, One(Plain::Whole32)),
    Field(Name::Call, Needed, One(Plain::CallName)),
    Field(Name::Id, Fresh, One(Plain::Checkpoint)),
    Field(Name::Lifetime, Optional, One(Plain::Whole64)),
    Field(Name::Source, Optional, One(Plain::Checkpoint)),
    Field(Name::Name, Optional, One(Plain::Text)),
];

static REPLACE_CHECKPOINT: [Field; 7] = [
    Field(Name::Start, Needed, One(Plain::Whole32)),
    Field(Name::Call, Needed, One(Plain::CallName)),
    Field(Name::Old, Needed, One(Plain::Checkpoint)),
    Field(Name::Id, Fresh, One(Plain::Checkpoint)),
    Field(Name::Lifetime, Optional, One(Plain::Whole64)),
    Field(Name::Source, Optional, One(Plain::Checkpoint)),
    Field(Name::Name, Optional, One(Plain::Text)),
];

static REFRESH_CHECKPOINT: [Field; 4] = [
    Field(Name::Start, Needed, One(Plain::Whole32)),
    Field(Name::Call, Needed, One(Plain::CallName)),
    Field(Name::Id, Needed, One(Plain::Checkpoint)),
    Field(Name::Lifetime, Optional, One(Plain::Whole64)),
];

static DELETE_CHECKPOINT: [Field; 3] = [
    Field(Name::Start, Needed, One(Plain::Whole32)),
    Field(Name::Call, Needed, One(Plain::CallName)),
    Field(Name::Id, Needed, One(Plain::Checkpoint)),
];

static PASS: [Field; 6] = [
    Field(Name::Start, Needed, One(Plain::Whole32)),
    Field(Name::Call, Needed, One(Plain::CallName)),
    Field(Name::Pass, Needed, One(Plain::Pass)),
    Field(Name::MinAge, Optional, One(Plain::Whole64)),
    Field(Name::DryRun, Optional, One(Plain::Flag)),
    Field(Name::Filter, Optional, One(Plain::Filter)),
];

impl Object {
    /// The fields that it may have.
    pub(crate) fn fields(self) -> &'static [Field] {
        match self {
            Object::Whole => &WHOLE,
            Object::Database => &DATABASE,
            Object::L0 => &L0,
            Object::Run => &RUN,
            Object::Marker => &MARKER,
            Object::Checkpoint => &CHECKPOINT,
            Object::Record => &RECORD,
            Object::Compaction => &COMPACTION,
            Object::Open => &OPEN,
            Object::Step => &STEP,
            Object::Stop => &STOP,
            Object::Bare => &BARE,
            Object::Upload => &UPLOAD,
            Object::Flush => &FLUSH,
            Object::FlushTable => &FLUSH_TABLE,
            Object::OfCompaction => &OF_COMPACTION,
            Object::UnderCheckpoint => &UNDER_CHECKPOINT,
            Object::Report => &REPORT,
            Object::WriteCheckpoint => &WRITE_CHECKPOINT,
            Object::ReplaceCheckpoint => &REPLACE_CHECKPOINT,
            Object::RefreshCheckpoint => &REFRESH_CHECKPOINT,
            Object::DeleteCheckpoint => &DELETE_CHECKPOINT,
            Object::Pass => &PASS,
        }
    }

    /// What a start of the call of a name stands as.
    pub(crate) fn of_call(name: &str) -> Option<Object> {
        match name {
            "open_writer" | "open_compactor" | "refresh" | "write_record" => Some(Object::Bare),
            "upload" => Some(Object::Upload),
            "flush" => Some(Object::Flush),
            "schedule" | "finish" | "fail" | "claim" => Some(Object::OfCompaction),
            "write_manifest" | "write_state" => Some(Object::UnderCheckpoint),
            "report" => Some(Object::Report),
            "write_checkpoint" => Some(Object::WriteCheckpoint),
            "replace_checkpoint" => Some(Object::ReplaceCheckpoint),
            "refresh_checkpoint" => Some(Object::RefreshCheckpoint),
            "delete_checkpoint" => Some(Object::DeleteCheckpoint),
            "pass" => Some(Object::Pass),
            _ => None,
        }
    }
}

/// The word of a kind, after its article.
pub(crate) fn kind_words(kind: PartyKind) -> &'static str {
    match kind {
        PartyKind::Writer => "a writer",
        PartyKind::Compactor => "a compactor",
        PartyKind::Worker => "a worker",
        PartyKind::Holder => "a holder",
        PartyKind::Collector => "a collector",
    }
}

/// The names of the calls of a kind: a later call is a word here.
pub(crate) fn call_words(kind: PartyKind) -> &'static str {
    match kind {
        PartyKind::Writer => "open_writer, upload, flush",
        PartyKind::Compactor =>
            "open_compactor, refresh, schedule, finish, fail, write_manifest, write_record, write_state",
        PartyKind::Worker => "upload, claim, report",
        PartyKind::Holder =>
            "write_checkpoint, replace_checkpoint, refresh_checkpoint, delete_checkpoint",
        PartyKind::Collector => "pass",
    }
}

/// Whether a kind has the call of a name.
pub(crate) fn has_call(kind: PartyKind, call: &str) -> bool {
    call_words(kind).split(", ").any(|name| name == call)
}
