//! The bytes of trees and segments.
ghost use Rattle.std.specs.Prelude.{◌≡◌, ◌++◌, true, OnOk};
ghost use Rattle.std.specs.List.{list_all};
ghost use Rattle.std.proofs.Common.{arith};
ghost use Rattle.slate_layout_parts.specs.Bytes.{list_bytes};
ghost use Rattle.slate_layout_parts.specs.Typed.{is_view};
ghost use Rattle.slate_layout_parts.specs.ViewParts.{view_bytes};
ghost use Rattle.slate_layout_manifests.specs.TreeParts as trees;
ghost use Rattle.slate_layout_manifests.specs.TypedManifests as typed;
ghost use Rattle.slate_layout_manifests.specs.laws.Trees as laws;

use bytes::Bytes;
use slate_ids::{Listed, OutOfMemory, Ulid};
use slate_layout_parts::{Form, Part, Reader, Tables, write_count, write_items};
use slate_model::{LsmTreeState, Queue, Segment, SortedRun, SsTableView};
use std::alloc::Global;

// Adds the bytes of the views of a queue at the end.
fn write_queue(views: &Queue<SsTableView>, out: &mut Vec<u8>) -> Result<(), OutOfMemory>
    ensures bytes { OnOk result (out.new.items ≡ out.old.items ++ list_bytes view_bytes views.now) }
    ensures typed { OnOk result (list_all is_view views.now ≡ true) }
{
    let (front, back) = views.as_slices();
    write_count(views.as_deque().len(), out)?;
    write_items(front, out)?;
    write_items(back, out)
}

// The marker of views, the flushed tables' views, and the runs.
type TreeParts = (Option<Ulid>, (Listed<SsTableView>, Listed<SortedRun>));

/// The form of trees.
pub struct TreeForm;

impl Form<LsmTreeState> for TreeForm {
    ghost bytes = { trees.tree_bytes };

    ghost in_front = { trees.tree_in };

    ghost Fits = { trees.TreeFits };

    ghost is_typed = { typed.is_tree };

    ghost LEAST = { 1 };

    const LEAST: usize = 1;

    ghost few = { omega arith };

    ghost reads = { laws.tree_reads };

    fn write(tree: &LsmTreeState, out: &mut Vec<u8>) -> Result<(), OutOfMemory> {
        tree.last_compacted_l0_sst_view_id.write(out)?;
        write_queue(&tree.l0, out)?;
        tree.compacted.write(out)
    }

    fn read<'a>(
        alloc: Global,
        tables: &Tables,
        from: Reader<'a>,
    ) -> Result<Option<(LsmTreeState, Reader<'a>)>, OutOfMemory> {
        match TreeParts::read(alloc, tables, from)? {
            Some(((marker, (l0, compacted)), from)) => {
                let tree = LsmTreeState {
                    last_compacted_l0_sst_view_id: marker,
                    last_compacted_l0_sst_id: None,
                    l0: Queue::from_vec(l0.into_vec()),
                    compacted,
                };
                Ok(Some((tree, from)))
            }
            None => Ok(None),
        }
    }
}

/// The form of segments.
pub struct SegmentForm;

impl Form<Segment> for SegmentForm {
    ghost bytes = { trees.segment_bytes };

    ghost in_front = { trees.segment_in };

    ghost Fits = { trees.SegmentFits };

    ghost is_typed = { typed.is_segment };

    ghost LEAST = { 4 };

    const LEAST: usize = 4;

    ghost few = { omega arith };

    ghost reads = { laws.segment_reads };

    fn write(segment: &Segment, out: &mut Vec<u8>) -> Result<(), OutOfMemory> {
        segment.prefix().write(out)?;
        TreeForm::write(segment.tree(), out)
    }

    fn read<'a>(
        alloc: Global,
        tables: &Tables,
        from: Reader<'a>,
    ) -> Result<Option<(Segment, Reader<'a>)>, OutOfMemory> {
        let Some((prefix, from)) = Bytes::read(alloc, tables, from)? else {
            return Ok(None);
        };
        match TreeForm::read(alloc, tables, from) {
            Ok(Some((tree, from))) => Ok(Some((Segment::new(prefix, tree), from))),
            Ok(None) => {
                drop(prefix);
                Ok(None)
            }
            Err(e) => {
                drop(prefix);
                Err(e)
            }
        }
    }
}
