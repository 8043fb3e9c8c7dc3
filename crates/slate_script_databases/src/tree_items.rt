//! What an item of a script says of a database's trees.
ghost use Rattle.std.specs.Prelude.{◌≡◌, ℕ, List, IfOk};
ghost use Rattle.serde_json.specs.View.{view};
ghost use Rattle.slate_script_json.specs.Fields.{Gives};
ghost use Rattle.slate_script_databases.specs.DatabaseFields as database_fields;
ghost use Rattle.slate_script_databases.specs.DatabaseFields.{tree_items_in};

use bytes::Bytes;
use serde_json::Value;
use slate_ids::{Listed, OutOfMemory, Ulid};
use slate_script_json::{FromJson, JsonError, defaulted, only, required};
use std::alloc::Global;
use std::collections::BTreeSet;

/// A view of a table that a flush wrote, in the tree of a prefix.
#[derive(Debug, Drop)]
pub(crate) struct L0Item {
    pub(crate) prefix: Bytes,
    pub(crate) view_id: Ulid,
    pub(crate) table_id: Ulid,
}

/// A sorted run of tables, in the tree of a prefix.
#[derive(Debug, Drop)]
pub(crate) struct RunItem {
    pub(crate) prefix: Bytes,
    pub(crate) id: u32,
    pub(crate) table_ids: Listed<Ulid>,
}

/// The view that was compacted last in the tree of a prefix.
#[derive(Debug, Drop)]
pub(crate) struct MarkerItem {
    pub(crate) prefix: Bytes,
    pub(crate) view_id: Ulid,
}

/// All that a database says of its trees, in the order of the script.
#[derive(Debug, Drop)]
pub(crate) struct TreeItems {
    pub(crate) l0: Listed<L0Item>,
    pub(crate) runs: Listed<RunItem>,
    pub(crate) markers: Listed<MarkerItem>,
}

impl L0Item {
    /// An equal item.
    pub(crate) fn copy(&self) -> Result<L0Item, OutOfMemory>
        ensures { IfOk result (λ copied. copied ≡ self.now) }
    {
        Ok(L0Item {
            prefix: self.prefix.clone()?,
            view_id: self.view_id,
            table_id: self.table_id,
        })
    }
}

impl RunItem {
    /// An equal item.
    pub(crate) fn copy(&self, alloc: Global) -> Result<RunItem, OutOfMemory>
        ensures { IfOk result (λ copied. copied ≡ self.now) }
    {
        Ok(RunItem {
            prefix: self.prefix.clone()?,
            id: self.id,
            table_ids: self.table_ids.copy(alloc)?,
        })
    }
}

impl MarkerItem {
    /// An equal item.
    pub(crate) fn copy(&self) -> Result<MarkerItem, OutOfMemory>
        ensures { IfOk result (λ copied. copied ≡ self.now) }
    {
        Ok(MarkerItem {
            prefix: self.prefix.clone()?,
            view_id: self.view_id,
        })
    }
}

/// An item of the tree of a prefix.
pub(crate) trait InTree {
    /// The prefix, as contracts see it.
    ghost its_prefix: { Self → List ℕ };

    /// The prefix.
    fn prefix(&self) -> &Bytes
        ensures { result.now ≡ its_prefix self.now };
}

impl InTree for L0Item {
    ghost its_prefix = { λ i. i.prefix };

    fn prefix(&self) -> &Bytes {
        &self.prefix
    }
}

impl InTree for RunItem {
    ghost its_prefix = { λ i. i.prefix };

    fn prefix(&self) -> &Bytes {
        &self.prefix
    }
}

impl InTree for MarkerItem {
    ghost its_prefix = { λ i. i.prefix };

    fn prefix(&self) -> &Bytes {
        &self.prefix
    }
}

impl FromJson for L0Item {
    ghost use Rattle.slate_script_databases.specs.DatabaseFields.{l0_item_in};

    ghost reads = { l0_item_in };

    #[tactic(auto, unfolding(crate::specs::DatabaseFields::l0_item_in))]
    fn from_json(alloc: Global, d: &Value) -> Result<L0Item, JsonError> {
        only(d, &["prefix", "view", "table"])?;
        let prefix = defaulted(alloc, d, "prefix", Bytes::new())?;
        let view_id = required(alloc, d, "view")?;
        let table_id = required(alloc, d, "table")?;
        Ok(L0Item {
            prefix,
            view_id,
            table_id,
        })
    }
}

impl FromJson for RunItem {
    ghost use Rattle.slate_script_databases.specs.DatabaseFields.{run_item_in};

    ghost reads = { run_item_in };

    #[tactic(auto, unfolding(crate::specs::DatabaseFields::run_item_in))]
    fn from_json(alloc: Global, d: &Value) -> Result<RunItem, JsonError> {
        only(d, &["prefix", "id", "tables"])?;
        let prefix = defaulted(alloc, d, "prefix", Bytes::new())?;
        let id = required(alloc, d, "id")?;
        let table_ids = required(alloc, d, "tables")?;
        Ok(RunItem {
            prefix,
            id,
            table_ids,
        })
    }
}

impl FromJson for MarkerItem {
    ghost use Rattle.slate_script_databases.specs.DatabaseFields.{marker_item_in};

    ghost reads = { marker_item_in };

    #[tactic(auto, unfolding(crate::specs::DatabaseFields::marker_item_in))]
    fn from_json(alloc: Global, d: &Value) -> Result<MarkerItem, JsonError> {
        only(d, &["prefix", "view"])?;
        let prefix = defaulted(alloc, d, "prefix", Bytes::new())?;
        let view_id = required(alloc, d, "view")?;
        Ok(MarkerItem { prefix, view_id })
    }
}

// Whether no prefix has two markers.
fn one_each(alloc: Global, markers: &[MarkerItem]) -> Result<bool, OutOfMemory>
    ensures { IfOk result (λ once. once ≡ database_fields.one_each markers.now) }
{
    let mut seen = BTreeSet::new(alloc);
    let mut i = markers.len();
    while i > 0 {
        i -= 1;
        if !seen.insert(markers[i].prefix.clone()?)? {
            return Ok(false);
        }
    }
    Ok(true)
}

/// What a database says of its trees.
#[tactic(auto, unfolding(crate::specs::DatabaseFields::tree_items_in))]
pub(crate) fn read_tree_items(alloc: Global, d: &Value) -> Result<TreeItems, JsonError>
    ensures { Gives result (tree_items_in (view d.now)) }
{
    let l0 = defaulted(alloc, d, "l0", Listed::new(alloc))?;
    let runs = defaulted(alloc, d, "runs", Listed::new(alloc))?;
    let markers: Listed<MarkerItem> = defaulted(alloc, d, "markers", Listed::new(alloc))?;
    if !one_each(alloc, markers.as_slice())? {
        return Err(JsonError::Malformed);
    }
    Ok(TreeItems { l0, runs, markers })
}
