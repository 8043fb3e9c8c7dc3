//! What a log of a database is of.
ghost use Rattle.std.specs.Prelude.{◌≡◌, ℕ, true};
ghost use Rattle.slate_ids.specs.declared.error.SlateDBError.{SlateDBError as Refusal};
ghost use Rattle.slate_txn_log.specs.declared.log_kind.LogKind.{LogKind as AnyKind};
ghost use Rattle.slate_txn_laws.specs.Plain.{is_plain, PlainLog};
ghost use Rattle.slate_txn_laws.specs.Replies.{MissingIsPlain};

use slate_ids::{Epochs, ObjectCodec, SlateDBError};
use slate_txn_delete::VersionNames;
use slate_txn_log::{LogKind, Rules};

/// A log of a database: which one it is, the codec of its values, the rules on new versions, the epochs that fence its holders, which
/// versions a value names, and how a version is told.
pub trait DbLog {
    /// What a version holds.
    type Value: Drop;
    /// A number and the value of that number.
    type Version: Drop;

    type Codec: ObjectCodec<Self::Value> + Drop;

    type Rules: Rules<Self::Value> + Drop;

    type Epochs: Epochs<Self::Value> + Drop;

    type Names: VersionNames<Self::Value> + Drop;

    /// Which log.
    ghost its_kind: { AnyKind };

    /// What names the versions of its values.
    ghost its_names: { Self.Names };

    /// A number and the value of that number, as a version.
    ghost version_of: { ℕ × Self.Value → Self.Version };

    /// How a number is refused whose version isn't there.
    ghost missing_at: { ℕ → Refusal };

    /// Which log.
    fn kind() -> LogKind
        ensures { result ≡ its_kind };

    /// The codec of its values.
    fn codec() -> Self::Codec;

    /// The rules on new versions.
    fn rules() -> Self::Rules;

    /// What names the versions of its values.
    fn names() -> Self::Names
        ensures { result ≡ its_names };

    /// The version of this number. Takes no memory.
    fn version(id: u64, value: Self::Value) -> Self::Version
        ensures { result ≡ version_of (id, value) };

    /// The refusal of a number whose version isn't there.
    fn missing(number: u64) -> SlateDBError
        ensures { result ≡ missing_at number };

    /// Codec and rules refuse a value for what it is: with no fault of the store, no fence, no taken number and no tries that are used up.
    ghost plain: { PlainLog Self.Codec.decoded Self.Codec.encoded Self.Rules.refusal };

    /// A number is refused whose version isn't there, neither for want of memory nor as a fault.
    ghost missing_plain: { MissingIsPlain missing_at };

    /// Nor as others do.
    ghost missing_inside: { (n : ℕ) → is_plain (missing_at n) ≡ true };
}
