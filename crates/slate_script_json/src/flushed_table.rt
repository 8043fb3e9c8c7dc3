//! Tables that a flush adds.

use crate::fields::{defaulted, only, required};
use crate::json_error::JsonError;
use crate::values::FromJson;
use bytes::Bytes;
use serde_json::Value;
use slate_script_events::FlushTable;
use std::alloc::Global;

impl FromJson for FlushTable {
    ghost use Rattle.slate_script_json.specs.ReadFlushedTables.{flush_table_in};

    ghost reads = { flush_table_in };

    #[tactic(auto, unfolding(crate::specs::ReadFlushedTables::flush_table_in))]
    fn from_json(alloc: Global, d: &Value) -> Result<FlushTable, JsonError> {
        only(d, &["table", "view", "prefix"])?;
        let table = required(alloc, d, "table")?;
        let view = required(alloc, d, "view")?;
        let prefix = defaulted(alloc, d, "prefix", Bytes::new())?;
        Ok(FlushTable {
            table,
            view,
            prefix,
        })
    }
}
