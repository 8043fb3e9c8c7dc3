//! Commits of what a function answers of the version held, whatever function it is.
ghost use Rattle.std.specs.Prelude.{ℕ, Option, Result};
ghost use Rattle.slate_txn_log.specs.declared.right.Right.{Right};
ghost use Rattle.slate_txn.specs.ApplyMoves.{ways_by};
ghost use Rattle.slate_txn.specs.Changing.{May};
ghost use Rattle.slate_txn.specs.FencedApplying.{FencedMay};
ghost use Rattle.slate_txn_laws.specs.Applying.{LatestMovesEnd, MovesEnd, MovesEndInside};
ghost use Rattle.slate_txn_laws.specs.Codecs.{Decoding, Encoding, Refusing};

use slate_ids::SlateDBError;

/// The same as of changes that are computed (`apply_ends`) of a function that may answer differently each time: over a store that
/// serves it, with two tries or more, an answer that it may give of the version held or of the latest one is committed to a log that
/// is ready, or there is a reason of the call's own; whatever it answers, the log stays ready. Or memory ran out. From a holder of the
/// latest version one try does.
pub fn moves_end<T, C, R, F: Fn(u64, &T) -> Result<Option<T>, SlateDBError>>(f: &F)
    ensures answers { (decoded : Decoding C T) (encoded : Encoding C T) (refusal : Refusing R T) (right : Right)
        → MovesEnd (ways_by decoded encoded refusal (May (F.post f.now)) right) }
    ensures latest { (decoded : Decoding C T) (encoded : Encoding C T) (refusal : Refusing R T) (right : Right)
        → LatestMovesEnd (ways_by decoded encoded refusal (May (F.post f.now)) right) }
    ensures inside { (decoded : Decoding C T) (encoded : Encoding C T) (refusal : Refusing R T) (right : Right)
        → MovesEndInside (ways_by decoded encoded refusal (May (F.post f.now)) right) }
{}

/// The same of a fenced holder: the fence of each version is asked before the function is.
pub fn fenced_moves_end<T, C, R, E, F: Fn(u64, &T) -> Result<Option<T>, SlateDBError>>(f: &F)
    ensures { (decoded : Decoding C T) (encoded : Encoding C T) (refusal : Refusing R T) (epoch : E → T → ℕ) (epochs : E) (own : ℕ)
        (right : Right) → MovesEnd (ways_by decoded encoded refusal (FencedMay epoch epochs own (May (F.post f.now))) right) }
{}
