//! What follows from the definitions of paths and of ranges alone.
ghost use Rattle.std.specs.Prelude.{◌≡◌, ◌&&◌, ◌<◌, ◌^◌, ℕ, List, true, false, All};
ghost use Rattle.slate_ids.specs.Keys.{is_ordered, begins_with};
ghost use Rattle.slate_ids.specs.KeyRange.{KeyRange, has_key, is_proper, common, ranges_meet, prefix_range};
ghost use Rattle.slate_ids.specs.FinePath.{IsFine};
ghost use Rattle.slate_ids.specs.PathText.{path_text};
ghost use Rattle.slate_ids.specs.declared.object_path.ObjectPath.{ObjectPath as AnyPath};

/// Paths that differ have different texts.
pub fn paths_apart()
    ensures { (p q : AnyPath) → IsFine p → IsFine q → path_text p ≡ path_text q → p ≡ q }
{}

/// Ranges are sets of keys. What two have in common has the keys that are in both; it is proper exactly where both are, and each
/// starts before the other ends; a range that isn't proper has no keys. The range of a prefix is proper, and has exactly the keys
/// that begin with the prefix.
pub fn ranges_are_sets()
    ensures common { (a b : KeyRange) (key : List ℕ)
        → has_key (common a b) key ≡ (has_key a key && has_key b key) }
    ensures meet { (a b : KeyRange)
        → ranges_meet a b
        ≡ (is_proper a && is_proper b && is_ordered a.start b.end && is_ordered b.start a.end) }
    ensures none { (r : KeyRange) (key : List ℕ) → is_proper r ≡ false → has_key r key ≡ false }
    ensures prefix { (prefix key : List ℕ) → All (λ b. b < 2 ^ 8) key
        → has_key (prefix_range prefix) key ≡ begins_with prefix key }
    ensures prefix_proper { (prefix : List ℕ) → is_proper (prefix_range prefix) ≡ true }
{}
