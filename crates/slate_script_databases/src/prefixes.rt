//! The prefixes of a database's segments.
ghost use Rattle.std.specs.Prelude.{◌≡◌, ◌++◌, map, IfOk, OnOk, if◌then◌else◌};
ghost use Rattle.std.specs.Ordering.{nat_cmp};
ghost use Rattle.std.specs.Cmp.Lexicographic.{slice_cmp};
ghost use Rattle.std.specs.BTreeSet.{insert_key};
ghost use Rattle.slate_script_databases.specs.Databases as databases;
ghost use Rattle.slate_script_databases.specs.Databases.{is_some_prefix};

use crate::tree_items::{InTree, TreeItems};
use bytes::Bytes;
use slate_ids::{Listed, OutOfMemory};
use std::alloc::Global;
use std::collections::BTreeSet;

/// Prefixes, in order.
pub(crate) type Prefixes = BTreeSet<Bytes>;

// Adds the prefixes of these items.
fn push_prefixes<T: InTree>(prefixes: &mut Listed<Bytes>, items: &[T]) -> Result<(), OutOfMemory>
    ensures { OnOk result (prefixes.new ≡ prefixes.old ++ map T.its_prefix items.now) }
{
    for item in items {
        prefixes.push(item.prefix().clone()?)?;
    }
    Ok(())
}

// The prefixes that are named, as often as they are.
fn named_prefixes(alloc: Global, items: &TreeItems) -> Result<Listed<Bytes>, OutOfMemory>
    ensures { IfOk result (λ named. named ≡ databases.named_prefixes items.now) }
{
    let mut named = Listed::new(alloc);
    push_prefixes(&mut named, items.l0.as_slice())?;
    push_prefixes(&mut named, items.runs.as_slice())?;
    push_prefixes(&mut named, items.markers.as_slice())?;
    Ok(named)
}

// Adds a prefix, where it is another than "".
fn add_prefix(prefixes: &mut Prefixes, prefix: &Bytes) -> Result<(), OutOfMemory>
    ensures { OnOk result (prefixes.new.keys
        ≡ (if is_some_prefix prefix.now then insert_key (slice_cmp nat_cmp) prefixes.old.keys prefix.now
        else prefixes.old.keys)) }
{
    if !prefix.is_empty() {
        prefixes.insert(prefix.clone()?)?;
    }
    Ok(())
}

// The prefixes other than "", each once, ascending.
fn ascending(alloc: Global, named: &[Bytes]) -> Result<Prefixes, OutOfMemory>
    ensures { IfOk result (λ prefixes. prefixes.keys ≡ databases.segment_prefixes named.now) }
{
    let mut prefixes = BTreeSet::new(alloc);
    for prefix in named {
        add_prefix(&mut prefixes, prefix)?;
    }
    Ok(prefixes)
}

/// The prefixes other than "" that are named, each once, ascending.
pub(crate) fn segment_prefixes(alloc: Global, items: &TreeItems) -> Result<Prefixes, OutOfMemory>
    ensures { IfOk result
        (λ prefixes. prefixes.keys ≡ databases.segment_prefixes (databases.named_prefixes items.now)) }
{
    let named = named_prefixes(alloc, items)?;
    ascending(alloc, named.as_slice())
}
