//! Reads of the versions that a manifest's checkpoints name.
ghost use Rattle.std.specs.Prelude.{◌≡◌, ◌⊎◌, ℕ, List, Some, Result, true};
ghost use Rattle.slate_ids.specs.Answers.{ran_out};
ghost use Rattle.slate_ids.specs.declared.error.SlateDBError.{SlateDBError as Refusal};
ghost use Rattle.slate_model.specs.declared.manifest.Manifest.{Manifest};
ghost use Rattle.slate_txn_laws.specs.Ending.{EndsInside, WhereServed};
ghost use Rattle.slate_txn_laws.specs.Outside.{NeverOutside};
ghost use Rattle.slate_state_referenced.specs.Referenced.{Referenced};
ghost use Rattle.slate_state_complete.specs.ReadingNamed.{ReferencedAnswers};

/// Over a store that serves it, a read of the versions that a manifest's checkpoints name gives the manifest handed in, and each other
/// version that is named as it stands, and no more; or one of them doesn't stand, or the codec refuses it. The contents stay. Or memory
/// ran out. Unless the codec does, it never answers a fault.
pub fn referenced_ends()
    ensures answers { (db : List ℕ) (decoded : List ℕ → Result Manifest Refusal) (n : ℕ) (m : Manifest)
        → WhereServed (Referenced db decoded n m)
        (λ s new result. (ReferencedAnswers db decoded s n m result × (new.contents ≡ Some s)) ⊎ (ran_out result ≡ true)) }
    ensures inside { (db : List ℕ) (decoded : List ℕ → Result Manifest Refusal) (n : ℕ) (m : Manifest) → NeverOutside decoded
        → WhereServed (Referenced db decoded n m) EndsInside }
{}
