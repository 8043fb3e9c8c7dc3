//! The rules on a new version of a record of compactions.
ghost use Rattle.std.specs.Prelude.{◌≡◌, ◌≢◌, ◌<◌, ◌^◌, ℕ, [], None};
ghost use Rattle.std.specs.List.{list_any};
ghost use Rattle.slate_txn_log.specs.declared.right.Right.{Right as AnyRight};
ghost use Rattle.slate_model_records.specs.Records.{Record};
ghost use Rattle.slate_model_records.specs.Retaining.{has_id};
ghost use Rattle.slate_state_record_updates.specs.RecordRules as rules;
ghost use Rattle.slate_state_record_updates.specs.RecordRules.{first_refusal, record_refusal_of, KeepsLeast};

use slate_ids::{SlateDBError, Ulid, UpdateRule};
use slate_model::{Compaction, Compactions, SsTableHandle, SsTableId};
use slate_txn_log::{Right, Rules};
use std::alloc::Global;

// ---- milliseconds

// Why these milliseconds may not come after those.
fn clock_refusal(last: u64, next: u64) -> Option<SlateDBError>
    requires last_fits { last < 2 ^ 48 }
    requires next_fits { next < 2 ^ 48 }
    ensures { result ≡ rules.clock_refusal last next }
{
    if next < last {
        Some(SlateDBError::InvalidClockTick {
            last_tick: last as i64,
            next_tick: next as i64,
        })
    } else {
        None
    }
}

// The least milliseconds of a record's ids; 0 without compactions.
fn least_ms(compactions: &Compactions) -> u64
    ensures least { result ≡ rules.least_ms compactions.now.entries }
    ensures fits { result < 2 ^ 48 }
{
    match compactions.least_id() {
        None => 0,
        Some(id) => id.timestamp_ms(),
    }
}

// Why a compaction may not be in the record that follows one with these least milliseconds.
fn entry_refusal(least: u64, old: &Compactions, compaction: &Compaction) -> Option<SlateDBError>
    requires least { least ≡ rules.least_ms old.now.entries }
    requires fits { least < 2 ^ 48 }
    ensures { result ≡ rules.entry_refusal old.now.entries compaction.now }
{
    if old.get(compaction.id).is_some() {
        return None;
    }
    clock_refusal(least, compaction.id.timestamp_ms())
}

// Why one of the new compactions may not be there.
fn entries_refusal(old: &Compactions, new: &Compactions) -> Option<SlateDBError>
    ensures { result ≡ first_refusal (rules.entry_refusal old.now.entries) new.now.entries }
{
    let least = least_ms(old);
    for compaction in new.iter() {
        let refusal = entry_refusal(least, old, compaction);
        if refusal.is_some() {
            return refusal;
        }
    }
    None
}

// Why a table may not be the output of a compaction of these milliseconds.
fn table_refusal(ms: u64, id: SsTableId) -> Option<SlateDBError>
    requires { ms < 2 ^ 48 }
    ensures { result ≡ rules.table_refusal ms id }
{
    match id {
        SsTableId::Wal(_) => None,
        SsTableId::Compacted(id) => clock_refusal(ms, id.timestamp_ms()),
    }
}

// Why one of the tables may not be.
fn tables_refusal(ms: u64, tables: &[SsTableHandle]) -> Option<SlateDBError>
    requires { ms < 2 ^ 48 }
    ensures { result ≡ first_refusal (λ sst. rules.table_refusal ms sst.id) tables.now }
{
    for table in tables {
        let refusal = table_refusal(ms, table.id);
        if refusal.is_some() {
            return refusal;
        }
    }
    None
}

// Why one of a compaction's outputs may not be there.
fn outputs_refusal(compaction: &Compaction) -> Option<SlateDBError>
    ensures { result ≡ rules.outputs_refusal compaction.now }
{
    tables_refusal(
        compaction.id.timestamp_ms(),
        compaction.output_ssts.as_slice(),
    )
}

// Why one of the outputs in a record may not be there.
fn all_outputs_refusal(new: &Compactions) -> Option<SlateDBError>
    ensures { result ≡ first_refusal rules.outputs_refusal new.now.entries }
{
    for compaction in new.iter() {
        let refusal = outputs_refusal(compaction);
        if refusal.is_some() {
            return refusal;
        }
    }
    None
}

// ---- compactions that go

// Whether the old record has compactions, and the new one none.
fn is_emptied(old: &Compactions, new: &Compactions) -> bool
    ensures { result ≡ rules.is_emptied old.now.entries new.now.entries }
{
    !old.is_empty() && new.is_empty()
}

// Whether ids have this one.
fn has(ids: &[Ulid], id: Ulid) -> bool
    ensures { result ≡ has_id ids.now id }
{
    ids.iter().any(|other| *other == id)
}

// Whether a right removes the compaction of an id.
fn may_remove(right: &Right, id: Ulid) -> bool
    ensures { result ≡ rules.may_remove right.now id }
{
    match right {
        Right::RecordHolder { pending } => !has(pending.as_slice(), id),
        _ => false,
    }
}

// Whether a compaction of the old record is missing in the new one without the right.
fn is_lost(right: &Right, new: &Compactions, compaction: &Compaction) -> bool
    ensures { result ≡ rules.is_lost right.now new.now.entries compaction.now }
{
    new.get(compaction.id).is_none() && !may_remove(right, compaction.id)
}

// Whether one is.
fn loses(right: &Right, old: &Compactions, new: &Compactions) -> bool
    ensures { result ≡ list_any (rules.is_lost right.now new.now.entries) old.now.entries }
{
    for compaction in old.iter() {
        if is_lost(right, new, compaction) {
            return true;
        }
    }
    false
}

// ---- all of them

// The refusal that names a rule, where it is broken.
fn rule_refusal(broken: bool, rule: UpdateRule) -> Option<SlateDBError>
    ensures { result ≡ rules.rule_refusal broken rule }
{
    if broken {
        Some(SlateDBError::UpdateRefused(rule))
    } else {
        None
    }
}

// Why the milliseconds of new compactions and of outputs refuse a new record.
fn clocks_refusal(old: &Compactions, new: &Compactions) -> Option<SlateDBError>
    ensures { result ≡ rules.clocks_refusal old.now.entries new.now.entries }
{
    let refusal = entries_refusal(old, new);
    if refusal.is_some() {
        return refusal;
    }
    all_outputs_refusal(new)
}

// Why the compactions that go refuse a new record.
fn removal_refusal(old: &Compactions, new: &Compactions, right: &Right) -> Option<SlateDBError>
    ensures { result ≡ rules.removal_refusal right.now old.now.entries new.now.entries }
{
    let refusal = rule_refusal(is_emptied(old, new), UpdateRule::U8);
    if refusal.is_some() {
        return refusal;
    }
    rule_refusal(loses(right, old, new), UpdateRule::U9)
}

/// Why a new record may not follow an old one under this right: the first rule that it breaks. Its epoch doesn't fall
/// (`UpdateRefused`, as the last two). A compaction that the old record lacks lies at or above the old one's least id, and each
/// output at or above its compaction (`InvalidClockTick` with the milliseconds of both, of the first by the compactions' ids and then
/// in the outputs' order); milliseconds alone are compared, and a file of the write-ahead log has none. A record that has compactions
/// keeps one. Only the right of a holder of the record removes compactions, and none that is pending. Takes no memory.
pub fn refusal_of_record(
    old: &Compactions,
    new: &Compactions,
    right: &Right,
) -> Option<SlateDBError>
    ensures { result ≡ rules.refusal_between old.now new.now right.now }
{
    let fell = rule_refusal(new.compactor_epoch < old.compactor_epoch, UpdateRule::U1);
    if fell.is_some() {
        return fell;
    }
    let early = clocks_refusal(old, new);
    if early.is_some() {
        return early;
    }
    removal_refusal(old, new, right)
}

/// Which records may follow which, as `refusal_of_record` says.
#[derive(Clone, Copy, Debug)]
pub struct CompactionsRules;

impl Rules<Compactions> for CompactionsRules {
    ghost refusal = { λ _ id old new right. record_refusal_of id old new right };

    fn check(
        &self,
        _alloc: Global,
        _old_id: u64,
        old: &Compactions,
        new: &Compactions,
        right: &Right,
    ) -> Result<(), SlateDBError> {
        match refusal_of_record(old, new, right) {
            None => Ok(()),
            Some(refusal) => Err(refusal),
        }
    }
}

/// A record that has compactions keeps one along updates that are not refused, and the least milliseconds of its ids don't fall.
pub fn records_stand()
    ensures { (id : ℕ) (old new : Record) (right : AnyRight)
        → record_refusal_of id old new right ≡ None → old.entries ≢ []
        → KeepsLeast old.entries new.entries }
{}
