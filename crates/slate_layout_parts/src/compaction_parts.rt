//! The bytes of what a compaction's worker has done.
ghost use Rattle.std.specs.Prelude.{◌≡◌};
ghost use Rattle.std.proofs.Common.{arith};
ghost use Rattle.slate_layout_parts.specs.Bytes.{byte_bytes};
ghost use Rattle.slate_layout_parts.specs.InfoParts.{tag_in, TagFits};
ghost use Rattle.slate_layout_parts.specs.RecordParts as records;
ghost use Rattle.slate_layout_parts.specs.TypedCompactions as fields;
ghost use Rattle.slate_layout_parts.specs.Typed as typed;
ghost use Rattle.slate_layout_parts.specs.laws.Compacting as laws;

use crate::part::Part;
use crate::reader::Reader;
use crate::tables::Tables;
use slate_ids::{BytesRange, Listed, OutOfMemory, Text};
use slate_model_records::{CompactionContext, CompactionStatus, Subcompaction, WorkerSpec};
use slate_model_tables::SsTableHandle;
use std::alloc::Global;

impl Part for CompactionStatus {
    ghost bytes = { λ s. byte_bytes (records.status_number s) };

    ghost in_front = { λ tables. tag_in records.status_of };

    ghost Fits = { λ tables. TagFits records.status_of records.status_number };

    ghost is_typed = { typed.any };

    ghost LEAST = { 1 };

    const LEAST: usize = 1;

    ghost few = { omega arith };

    ghost reads = { λ tables. laws.status_reads };

    fn write(&self, out: &mut Vec<u8>) -> Result<(), OutOfMemory> {
        match self {
            CompactionStatus::Submitted => 0u8.write(out),
            CompactionStatus::Scheduled => 1u8.write(out),
            CompactionStatus::Running => 2u8.write(out),
            CompactionStatus::Compacted => 3u8.write(out),
            CompactionStatus::Completed => 4u8.write(out),
            CompactionStatus::Failed => 5u8.write(out),
        }
    }

    fn read<'a>(
        _alloc: Global,
        _tables: &Tables,
        from: Reader<'a>,
    ) -> Result<Option<(CompactionStatus, Reader<'a>)>, OutOfMemory> {
        let Some((number, from)) = from.byte() else {
            return Ok(None);
        };
        let status = match number {
            0 => CompactionStatus::Submitted,
            1 => CompactionStatus::Scheduled,
            2 => CompactionStatus::Running,
            3 => CompactionStatus::Compacted,
            4 => CompactionStatus::Completed,
            5 => CompactionStatus::Failed,
            _ => return Ok(None),
        };
        Ok(Some((status, from)))
    }
}

impl Part for WorkerSpec {
    ghost bytes = { records.worker_bytes };

    ghost in_front = { λ tables. records.worker_in };

    ghost Fits = { λ tables. records.WorkerFits };

    ghost is_typed = { fields.is_worker };

    ghost LEAST = { 4 };

    const LEAST: usize = 4;

    ghost few = { omega arith };

    ghost reads = { λ tables. laws.worker_reads };

    fn write(&self, out: &mut Vec<u8>) -> Result<(), OutOfMemory> {
        self.worker_id.write(out)?;
        self.last_heartbeat_ms.write(out)
    }

    fn read<'a>(
        alloc: Global,
        tables: &Tables,
        from: Reader<'a>,
    ) -> Result<Option<(WorkerSpec, Reader<'a>)>, OutOfMemory> {
        match <(Text, u64)>::read(alloc, tables, from)? {
            Some(((worker_id, last_heartbeat_ms), from)) => {
                let worker = WorkerSpec {
                    worker_id,
                    last_heartbeat_ms,
                };
                Ok(Some((worker, from)))
            }
            None => Ok(None),
        }
    }
}

impl Part for Subcompaction {
    ghost bytes = { records.part_bytes };

    ghost in_front = { λ tables. records.part_in };

    ghost Fits = { λ tables. records.PartFits };

    ghost is_typed = { fields.is_part };

    ghost LEAST = { 1 };

    const LEAST: usize = 1;

    ghost few = { omega arith };

    ghost reads = { λ tables. laws.part_reads };

    fn write(&self, out: &mut Vec<u8>) -> Result<(), OutOfMemory> {
        self.range.write(out)?;
        self.output_ssts.write(out)
    }

    fn read<'a>(
        alloc: Global,
        tables: &Tables,
        from: Reader<'a>,
    ) -> Result<Option<(Subcompaction, Reader<'a>)>, OutOfMemory> {
        match <(BytesRange, Listed<SsTableHandle>)>::read(alloc, tables, from)? {
            Some(((range, output_ssts), from)) => {
                Ok(Some((Subcompaction { range, output_ssts }, from)))
            }
            None => Ok(None),
        }
    }
}

impl Part for CompactionContext {
    ghost bytes = { records.context_bytes };

    ghost in_front = { λ tables. records.context_in };

    ghost Fits = { λ tables. records.ContextFits };

    ghost is_typed = { fields.is_context };

    ghost LEAST = { 4 };

    const LEAST: usize = 4;

    ghost few = { omega arith };

    ghost reads = { λ tables. laws.context_reads };

    fn write(&self, out: &mut Vec<u8>) -> Result<(), OutOfMemory> {
        self.subcompactions.write(out)?;
        self.retention_min_seq.unwrap_or(0).write(out)
    }

    fn read<'a>(
        alloc: Global,
        tables: &Tables,
        from: Reader<'a>,
    ) -> Result<Option<(CompactionContext, Reader<'a>)>, OutOfMemory> {
        match <(Listed<Subcompaction>, u64)>::read(alloc, tables, from)? {
            Some(((subcompactions, retention), from)) => {
                let context = CompactionContext {
                    subcompactions,
                    retention_min_seq: Some(retention),
                };
                Ok(Some((context, from)))
            }
            None => Ok(None),
        }
    }
}
