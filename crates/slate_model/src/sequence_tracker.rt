//! Moments of sequence numbers.
ghost use Rattle.std.specs.Prelude.{◌≡◌, ◌<◌, ◌++◌, ◌∷◌, [], OnOk, OnErr, IsTrue, Some, None, true, if◌then◌else◌, length};
ghost use Rattle.std.specs.List.{last_or, list_all};
ghost use Rattle.slate_model.specs.Sequences.{IsTracker, is_kept, is_pair, in_order, may_follow, with_room, inserted, ts_of, seq_of, last_to_seq, first_from_seq, last_to_ts, first_from_ts};

use crate::find_option::FindOption;
use slate_ids::{Millis, OutOfMemory};
use slate_model_tables::Plain;
use std::alloc::Global;
use std::marker::Model;

/// The most pairs that a tracker keeps.
const MOST_PAIRS: usize = 4096;

/// Which sequence number was written at which moment: pairs of a sequence number and a moment in milliseconds since the Unix epoch. The
/// sequence numbers ascend strictly, the moments don't descend, and there are at most 4,096 pairs.
#[derive(Debug, Drop)]
pub struct SequenceTracker {
    pairs: Vec<(u64, Millis)>,
}

impl Model for SequenceTracker {
    ghost use Rattle.std.specs.Prelude.{List, ℕ, ℤ};
    ghost use Rattle.slate_model.specs.Sequences.{IsTracker};

    ghost Value = { List (ℕ × ℤ) };

    ghost view = { λ a. a.pairs.items };

    ghost invariant = { λ a. IsTracker a.pairs.items };
}

// Whether a pair may be the next.
fn follows_last(last: Option<(u64, Millis)>, pair: (u64, Millis)) -> bool
    ensures order { result ≡ may_follow last pair }
    ensures fits { is_pair pair ≡ true }
{
    match last {
        None => true,
        Some((seq, ts)) => seq < pair.0 && ts <= pair.1,
    }
}

// Whether the pairs are in order.
fn are_in_order(pairs: &[(u64, Millis)]) -> bool
    ensures order { result ≡ in_order pairs.now }
    ensures fit { IsTrue result → list_all is_pair pairs.now ≡ true }
{
    let mut last = None;
    for pair in pairs {
        if !follows_last(last, *pair) {
            return false;
        }
        last = Some(*pair);
    }
    true
}

// One pair more at the end. Of 4,096 the oldest goes first, which takes no memory.
fn append(pairs: &mut Vec<(u64, Millis)>, pair: (u64, Millis)) -> Result<(), OutOfMemory>
    ensures ok { OnOk result (pairs.new.items ≡ with_room pairs.old.items ++ pair ∷ []) }
    ensures err { OnErr result (pairs.new.items ≡ pairs.old.items) }
    ensures room { OnErr result (length pairs.old.items < 4096) }
{
    let len = pairs.len();
    if len < MOST_PAIRS {
        pairs.push(pair)?;
        return Ok(());
    }
    pairs.rotate_left(1);
    pairs[len - 1] = pair;
    Ok(())
}

// The last pair whose number isn't above this one.
fn find_last_to_seq(pairs: &[(u64, Millis)], seq: u64) -> Option<(u64, Millis)>
    requires { in_order pairs.now ≡ true }
    ensures { result ≡ last_to_seq pairs.now seq }
{
    let count = pairs.partition_point(|pair| pair.0 <= seq);
    pairs[..count].last().copied()
}

// The first pair whose number isn't below this one.
fn find_first_from_seq(pairs: &[(u64, Millis)], seq: u64) -> Option<(u64, Millis)>
    requires { in_order pairs.now ≡ true }
    ensures { result ≡ first_from_seq pairs.now seq }
{
    let count = pairs.partition_point(|pair| pair.0 < seq);
    pairs[count..].first().copied()
}

// The last pair whose moment isn't above this one.
fn find_last_to_ts(pairs: &[(u64, Millis)], ts: Millis) -> Option<(u64, Millis)>
    requires { in_order pairs.now ≡ true }
    ensures { result ≡ last_to_ts pairs.now ts }
{
    let count = pairs.partition_point(|pair| pair.1 <= ts);
    pairs[..count].last().copied()
}

// The first pair whose moment isn't below this one.
fn find_first_from_ts(pairs: &[(u64, Millis)], ts: Millis) -> Option<(u64, Millis)>
    requires { in_order pairs.now ≡ true }
    ensures { result ≡ first_from_ts pairs.now ts }
{
    let count = pairs.partition_point(|pair| pair.1 < ts);
    pairs[count..].first().copied()
}

impl SequenceTracker {
    /// No pairs. Takes no memory.
    pub fn new(alloc: Global) -> SequenceTracker
        ensures { result ≡ [] }
    {
        SequenceTracker {
            pairs: Vec::new(alloc),
        }
    }

    /// These pairs, where they are in order and at most 4,096. Takes no memory.
    pub fn from_pairs(pairs: Vec<(u64, Millis)>) -> Option<SequenceTracker>
        ensures { result ≡ (if is_kept pairs.items then Some pairs.items else None) }
    {
        if pairs.len() <= MOST_PAIRS && are_in_order(pairs.as_slice()) {
            Some(SequenceTracker { pairs })
        } else {
            None
        }
    }

    /// The pairs, from the oldest to the newest.
    pub fn pairs(&self) -> &[(u64, Millis)]
        ensures value { result.now ≡ self.now }
        ensures kept { IsTracker result.now }
    {
        self.pairs.as_slice()
    }

    /// Adds a pair at the end, where its sequence number is above the last one's and its moment isn't below the last one's. Else nothing
    /// changes, and the answer is Ok all the same. At 4,096 pairs the oldest goes first, and each of the others moves by one place: so
    /// the pairs stay one slice. Memory is asked for only where a pair is added to fewer; running out of memory changes nothing.
    pub fn insert(&mut self, seq: u64, ts: Millis) -> Result<(), OutOfMemory>
        ensures ok { OnOk result (self.new ≡ inserted self.old (seq, ts)) }
        ensures err { OnErr result (self.new ≡ self.old) }
        ensures added { OnErr result (may_follow (last_or None self.old) (seq, ts) ≡ true) }
        ensures room { OnErr result (length self.old < 4096) }
    {
        if follows_last(self.pairs.last().copied(), (seq, ts)) {
            append(&mut self.pairs, (seq, ts))
        } else {
            Ok(())
        }
    }

    /// The moment of a sequence number, in milliseconds since the Unix epoch: rounded down, that of the last pair whose number isn't
    /// above; rounded up, that of the first pair whose number isn't below. None where there is no such pair.
    pub fn find_ts(&self, seq: u64, option: FindOption) -> Option<Millis>
        ensures { result ≡ ts_of self.now seq option }
    {
        let pairs = self.pairs.as_slice();
        let found = match option {
            FindOption::RoundDown => find_last_to_seq(pairs, seq),
            FindOption::RoundUp => find_first_from_seq(pairs, seq),
        };
        found.map(|pair| pair.1)
    }

    /// The sequence number of a moment in milliseconds since the Unix epoch: rounded down, that of the last pair whose moment isn't
    /// above; rounded up, that of the first pair whose moment isn't below. None where there is no such pair.
    pub fn find_seq(&self, ts: Millis, option: FindOption) -> Option<u64>
        ensures { result ≡ seq_of self.now ts option }
    {
        let pairs = self.pairs.as_slice();
        let found = match option {
            FindOption::RoundDown => find_last_to_ts(pairs, ts),
            FindOption::RoundUp => find_first_from_ts(pairs, ts),
        };
        found.map(|pair| pair.0)
    }
}

impl Plain for SequenceTracker {
    fn clone(&self, alloc: Global) -> Result<SequenceTracker, OutOfMemory> {
        Ok(SequenceTracker {
            pairs: Vec::from_slice(alloc, self.pairs.as_slice())?,
        })
    }

    fn is(&self, other: &SequenceTracker) -> bool {
        self.pairs == other.pairs
    }
}
