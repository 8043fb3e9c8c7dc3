//! Why a JSON value was not read.

use slate_ids::OutOfMemory;

/// Why a JSON value was not read.
#[derive(Clone, Copy, Debug, Drop, PartialEq, Eq)]
pub enum JsonError {
    /// It stands for nothing here.
    Malformed,
    /// Memory ran out.
    OutOfMemory,
}

impl From<OutOfMemory> for JsonError {
    ghost use Rattle.std.specs.Prelude.{◌≡◌};
    ghost use Rattle.slate_script_json.specs.declared.json_error.JsonError.TheVariants.{OutOfMemory as NoMemory};

    ghost from_gives = { λ _ e. e ≡ NoMemory };

    fn from(_e: OutOfMemory) -> JsonError {
        JsonError::OutOfMemory
    }
}
