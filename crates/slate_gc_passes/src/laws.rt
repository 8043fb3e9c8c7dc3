//! What holds of every pass.
ghost use Rattle.std.specs.Prelude.{List};
ghost use Rattle.slate_gc_passes.specs.Exact.{Answered, IsExact};
ghost use Rattle.slate_gc_passes.specs.Ways.{Ways};
ghost use Rattle.slate_gc_passes.specs.declared.pass_settings.PassSettings.{PassSettings as Settings};

/// Whatever is answered, a pass has deleted a front of what it picked of what it read, one object by one in order; where it ended without
/// a refusal, all of it, deletes that faulted included, and its counts are those of its picks, of the deletes that succeeded and of those
/// that faulted, and of the versions that its list found, where it deletes versions, one less for each delete that succeeded.
#[tactic(auto, using(crate::proofs::Exactly::exactly))]
pub fn passes_are_exact()
    ensures { (w : Ways) (settings : Settings) (answers : List Answered) → IsExact w settings answers }
{}
