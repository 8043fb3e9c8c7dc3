//! The traits that a log is generic over: bytes of a value, and its epoch.
ghost use Rattle.std.specs.Prelude.{◌≡◌, ℕ, List, Result, Ok, IfOk};
ghost use Rattle.slate_ids.specs.Answers.{Gives, GivesList};
ghost use Rattle.slate_ids.specs.declared.error.SlateDBError.{SlateDBError as Refusal};

use crate::error::SlateDBError;
use crate::out_of_memory::OutOfMemory;
use std::alloc::Global;

/// Bytes of a value, both ways, and copies of it.
pub trait ObjectCodec<T> {
    /// The bytes of a value, or why it has none.
    ghost encoded: { Self → T → Result (List ℕ) Refusal };

    /// The value of bytes, or why they have none.
    ghost decoded: { Self → List ℕ → Result T Refusal };

    /// What is read back of a value.
    ghost normal: { Self → T → T };

    /// The bytes of a value.
    fn encode(&self, alloc: Global, value: &T) -> Result<Vec<u8>, SlateDBError>
        ensures { GivesList result (encoded self.now value.now) };

    /// The value of bytes.
    fn decode(&self, alloc: Global, bytes: &[u8]) -> Result<T, SlateDBError>
        ensures { Gives result (decoded self.now bytes.now) };

    /// An equal value.
    fn copy(&self, alloc: Global, value: &T) -> Result<T, OutOfMemory>
        ensures { IfOk result (λ copied. copied ≡ value.now) };

    /// Decoding an encoded value gives its normal form.
    ghost round_trip: { (codec : Self) (value : T) (bytes : List ℕ)
        → encoded codec value ≡ Ok bytes → decoded codec bytes ≡ Ok (normal codec value) };
}

/// The epoch that fences holders of a value.
pub trait Epochs<T> {
    /// A value's epoch.
    ghost epoch: { Self → T → ℕ };

    /// A value with another epoch.
    ghost with_epoch: { Self → T → ℕ → T };

    /// The value's epoch.
    fn get(&self, value: &T) -> u64
        ensures { result ≡ epoch self.now value.now };

    /// Gives the value another epoch.
    fn set(&self, value: &mut T, number: u64)
        ensures { value.new ≡ with_epoch self.now value.old number };

    /// The epoch that was set is the value's.
    ghost epoch_set: { (epochs : Self) (value : T) (n : ℕ) → epoch epochs (with_epoch epochs value n) ≡ n };
}
