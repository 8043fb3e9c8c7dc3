//! What the test of records tells.
ghost use Rattle.std.specs.Prelude.{◌≡◌, ◌↔◌, true};
ghost use Rattle.slate_model_records.specs.Records.{Record};
ghost use Rattle.slate_layout_records.specs.RecordNormal.{normal_record};
ghost use Rattle.slate_layout_records.specs.NormalRecords.{is_normal_record};

/// The test is true of exactly those records that are read back as they are.
pub fn normal_records()
    ensures { (r : Record) → (is_normal_record r ≡ true) ↔ (normal_record r ≡ r) }
{}
