//! What an item of a script says of a database's first record.
ghost use Rattle.std.specs.Prelude.{◌≡◌};
ghost use Rattle.serde_json.specs.View.{view};
ghost use Rattle.slate_script_json.specs.Fields.{Gives};
ghost use Rattle.slate_script_databases.specs.FirstRecordFields.{destination_of, destination_in};

use bytes::Bytes;
use serde_json::Value;
use slate_ids::{Listed, Ulid};
use slate_model::CompactionStatus;
use slate_script_json::{FromJson, JsonError, defaulted, only, optional, or_malformed, required};
use std::alloc::Global;

/// A compaction of the record: it has no worker, and nothing to go on with.
#[derive(Debug, Drop)]
pub(crate) struct CompactionItem {
    pub(crate) id: Ulid,
    pub(crate) status: CompactionStatus,
    /// The prefix of its segment.
    pub(crate) segment: Bytes,
    /// The views among its sources, and the runs.
    pub(crate) views: Listed<Ulid>,
    pub(crate) runs: Listed<u32>,
    /// The run that it writes, where it writes one.
    pub(crate) destination: Option<u32>,
    /// The tables that it has written.
    pub(crate) outputs: Listed<Ulid>,
}

/// The record, in the order of the script.
#[derive(Debug, Drop)]
pub(crate) struct RecordItem {
    pub(crate) epoch: u64,
    pub(crate) compactions: Listed<CompactionItem>,
}

// The run that a compaction writes; none, where it drains.
fn chosen(destination: Option<u32>, drain: Option<bool>) -> Option<Option<u32>>
    ensures { result ≡ destination_of destination drain }
{
    match (destination, drain) {
        (Some(run), None) => Some(Some(run)),
        (None, Some(true)) => Some(None),
        _ => None,
    }
}

// What a compaction says of the run that it writes.
#[tactic(auto, unfolding(crate::specs::FirstRecordFields::destination_in))]
fn read_destination(alloc: Global, d: &Value) -> Result<Option<u32>, JsonError>
    ensures { Gives result (destination_in (view d.now)) }
{
    let destination = optional(alloc, d, "destination")?;
    let drain = optional(alloc, d, "drain")?;
    or_malformed(chosen(destination, drain))
}

impl FromJson for CompactionItem {
    ghost use Rattle.slate_script_databases.specs.FirstRecordFields.{compaction_item_in};

    ghost reads = { compaction_item_in };

    #[tactic(auto, unfolding(crate::specs::FirstRecordFields::compaction_item_in))]
    fn from_json(alloc: Global, d: &Value) -> Result<CompactionItem, JsonError> {
        only(
            d,
            &[
                "id",
                "status",
                "segment",
                "views",
                "runs",
                "destination",
                "drain",
                "outputs",
            ],
        )?;
        let id = required(alloc, d, "id")?;
        let status = required(alloc, d, "status")?;
        let segment = defaulted(alloc, d, "segment", Bytes::new())?;
        let views = required(alloc, d, "views")?;
        let runs = required(alloc, d, "runs")?;
        let destination = read_destination(alloc, d)?;
        let outputs = required(alloc, d, "outputs")?;
        Ok(CompactionItem {
            id,
            status,
            segment,
            views,
            runs,
            destination,
            outputs,
        })
    }
}

impl FromJson for RecordItem {
    ghost use Rattle.slate_script_databases.specs.FirstRecordFields.{record_item_in};

    ghost reads = { record_item_in };

    #[tactic(auto, unfolding(crate::specs::FirstRecordFields::record_item_in))]
    fn from_json(alloc: Global, d: &Value) -> Result<RecordItem, JsonError> {
        only(d, &["epoch", "compactions"])?;
        let epoch = required(alloc, d, "epoch")?;
        let compactions = required(alloc, d, "compactions")?;
        Ok(RecordItem { epoch, compactions })
    }
}
