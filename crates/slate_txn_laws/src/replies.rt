//! Replies that are told as others, and refusals that are neither a fault of the store nor a fence.
ghost use Rattle.std.specs.Prelude.{ℕ};
ghost use Rattle.slate_txn_laws.specs.Codecs.{Decoding, Encoding, Refusing};
ghost use Rattle.slate_txn_laws.specs.Plain.{CommitsFaultFree, CommitsFenceFree, PlainLog};
ghost use Rattle.slate_txn_laws.specs.Replies.{latest, latest_or_none, Faithful};

/// A version that is told in place of its number and its value hides no want of memory and no fault, and brings none.
#[tactic(auto, using(crate::proofs::Told::latest_faithful, crate::proofs::Told::latest_or_none_faithful))]
pub fn versions_are_told_faithfully<T, V>()
    ensures needed { (version : ℕ × T → V) → Faithful (latest version) }
    ensures any { (version : ℕ × T → V) → Faithful (latest_or_none version) }
{}

/// A holder whose codec and rules refuse a value for what it is commits what a function makes without a fault or a fence of its own.
#[tactic(auto, using(crate::proofs::PlainCommits::ways_fine, crate::proofs::PlainCommits::ways_free))]
pub fn plain_holders_pass_on<T, C, R>()
    ensures faults { (decoded : Decoding C T) (encoded : Encoding C T) (refusal : Refusing R T)
        → PlainLog decoded encoded refusal → CommitsFaultFree decoded encoded refusal }
    ensures fences { (decoded : Decoding C T) (encoded : Encoding C T) (refusal : Refusing R T)
        → PlainLog decoded encoded refusal → CommitsFenceFree decoded encoded refusal }
{}
