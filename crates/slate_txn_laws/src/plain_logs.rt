//! Codecs and rules that refuse a value for what it is.
ghost use Rattle.std.specs.Prelude.{ℕ};
ghost use Rattle.slate_txn_log.specs.Change.{next_epoch};
ghost use Rattle.slate_txn_log.specs.declared.right.Right.{Right};
ghost use Rattle.slate_txn_laws.specs.Plain.{PlainLog};
ghost use Rattle.slate_txn.specs.Apply.{ways_of};
ghost use Rattle.slate_txn.specs.Changing.{Making};
ghost use Rattle.slate_txn_laws.specs.Changing.{may_of};
ghost use Rattle.slate_txn_laws.specs.Codecs.{Decoding, Encoding, Refusing};
ghost use Rattle.slate_txn_laws.specs.Outside.{ChangesInside, CodecInside, FencedInside, RulesInside, WaysInside};

/// A codec and rules that refuse a value for what it is never answer a fault, a taken number, or that tries are used up. So they meet
/// the premises of the laws of this crate. A holder that commits what a function makes, whether a fence is asked before or not, answers
/// none of these unless the function does, and the raise of an epoch none.
pub fn plain_logs_are_inside<T, C, R, E>()
    ensures decodes { (decoded : Decoding C T) (encoded : Encoding C T) (refusal : Refusing R T)
        → PlainLog decoded encoded refusal → CodecInside decoded }
    ensures encodes { (decoded : Decoding C T) (encoded : Encoding C T) (refusal : Refusing R T)
        → PlainLog decoded encoded refusal → CodecInside encoded }
    ensures allows { (decoded : Decoding C T) (encoded : Encoding C T) (refusal : Refusing R T)
        → PlainLog decoded encoded refusal → RulesInside refusal }
    ensures ways { (decoded : Decoding C T) (encoded : Encoding C T) (refusal : Refusing R T)
        → PlainLog decoded encoded refusal
        → (changed : Making T) (right : Right) → ChangesInside decoded encoded refusal changed right }
    ensures fences { (decoded : Decoding C T) (encoded : Encoding C T) (refusal : Refusing R T)
        → PlainLog decoded encoded refusal
        → (epoch : E → T → ℕ) (epochs : E) (own : ℕ) (changed : Making T) (right : Right)
        → FencedInside decoded encoded refusal epoch epochs own changed right }
    ensures raises { (decoded : Decoding C T) (encoded : Encoding C T) (refusal : Refusing R T)
        → PlainLog decoded encoded refusal
        → (epoch : T → ℕ) (with_epoch : T → ℕ → T) (right : Right)
        → WaysInside (may_of (ways_of decoded encoded refusal (next_epoch epoch with_epoch) right)) }
{}
