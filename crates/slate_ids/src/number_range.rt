//! A range of version numbers.
ghost use Rattle.std.specs.Prelude.{◌≡◌};
ghost use Rattle.slate_ids.specs.Ranges.{is_within};

use std::ops::Bound;

/// A range of numbers. Either side may be open.
#[derive(Clone, Copy, Debug)]
pub struct NumberRange {
    pub start: Bound<u64>,
    pub end: Bound<u64>,
}

fn is_above(start: Bound<u64>, number: u64) -> bool
    ensures { result ≡ Rattle.slate_ids.specs.Ranges.is_above start number }
{
    match start {
        Bound::Included(n) => n <= number,
        Bound::Excluded(n) => n < number,
        Bound::Unbounded => true,
    }
}

fn is_below(end: Bound<u64>, number: u64) -> bool
    ensures { result ≡ Rattle.slate_ids.specs.Ranges.is_below end number }
{
    match end {
        Bound::Included(n) => number <= n,
        Bound::Excluded(n) => number < n,
        Bound::Unbounded => true,
    }
}

impl NumberRange {
    /// Whether the number is in the range.
    pub fn contains(&self, number: u64) -> bool
        ensures { result ≡ is_within self.now number }
    {
        is_above(self.start, number) && is_below(self.end, number)
    }
}
