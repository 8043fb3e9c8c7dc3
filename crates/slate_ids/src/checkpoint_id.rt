//! The id of a checkpoint.
ghost use Rattle.std.specs.Prelude.{◌≡◌, bytes_eq, refl};
ghost use Rattle.std.specs.Int.{from_be_bytes, w128};
ghost use Rattle.std.specs.Ordering.{eq_by_cmp, as_partial_cmp, nat_cmp};
ghost use Rattle.std.specs.Cmp.{partial_equiv_from_equiv, partial_order_from_total};
ghost use Rattle.std.specs.Cmp.Lexicographic.{slice_cmp, nat_list_cmp_total};
ghost use Rattle.std.proofs.lemmas.Cmp.{eq_by_cmp_equiv};
ghost use Rattle.slate_ids.specs.Ids.{checkpoint_of};

use std::cmp::Ordering;
use std::fmt;
use std::marker::Model;
use uuid::Uuid;

/// The id of a checkpoint, a UUID. Contracts see it as its sixteen bytes.
#[derive(Clone, Copy, Debug, Drop)]
pub struct CheckpointId {
    id: Uuid,
}

impl Model for CheckpointId {
    ghost use Rattle.std.specs.Prelude.{ℕ, List};

    ghost Value = { List ℕ };

    ghost view = { λ a. a.id };

    ghost inverse = { λ d. record { id = d } };
}

impl CheckpointId {
    /// The id whose number is `n`.
    pub fn from_u64(n: u64) -> CheckpointId
        ensures { result ≡ checkpoint_of n }
    {
        CheckpointId {
            id: Uuid::from_u128(n as u128),
        }
    }

    /// The id of these sixteen bytes.
    pub fn from_bytes(bytes: [u8; 16]) -> CheckpointId
        ensures { result ≡ bytes }
    {
        CheckpointId {
            id: Uuid::from_bytes(bytes),
        }
    }

    /// The id's number.
    pub fn as_u128(&self) -> u128
        ensures { result ≡ from_be_bytes w128 self.now }
    {
        self.id.as_u128()
    }

    /// The id's sixteen bytes.
    pub fn as_bytes(&self) -> &[u8; 16]
        ensures { result.now ≡ self.now }
    {
        self.id.as_bytes()
    }

    /// Whether the two are one id.
    pub fn is(&self, other: &CheckpointId) -> bool
        ensures { result ≡ bytes_eq self.now other.now }
    {
        self.as_bytes().as_slice() == other.as_bytes().as_slice()
    }
}

impl PartialEq for CheckpointId {
    ghost eq = { eq_by_cmp (slice_cmp nat_cmp) };

    ghost laws = { partial_equiv_from_equiv (eq_by_cmp_equiv nat_list_cmp_total) };

    fn eq(&self, other: &CheckpointId) -> bool {
        self.cmp(other).is_eq()
    }
}

impl Eq for CheckpointId {
    ghost laws = { eq_by_cmp_equiv nat_list_cmp_total };
}

impl PartialOrd for CheckpointId {
    ghost partial_cmp = { as_partial_cmp (slice_cmp nat_cmp) };

    ghost laws = { partial_order_from_total nat_list_cmp_total };

    fn partial_cmp(&self, other: &CheckpointId) -> Option<Ordering> {
        Some(self.cmp(other))
    }
}

/// Ids of checkpoints order as their bytes.
impl Ord for CheckpointId {
    ghost cmp = { slice_cmp nat_cmp };

    ghost total = { nat_list_cmp_total };

    ghost matches_partial_cmp = { λ _ _. refl };

    ghost matches_eq = { λ _ _. refl };

    fn cmp(&self, other: &CheckpointId) -> Ordering {
        self.as_bytes().as_slice().cmp(other.as_bytes().as_slice())
    }
}

impl fmt::Display for CheckpointId {
    ghost use Rattle.std.specs.Prelude.{Some};
    ghost use Rattle.uuid.specs.Text.{hyphenated_text, lower};

    ghost output = { λ d. Some (hyphenated_text lower d) };

    fn fmt<W: fmt::Write>(&self, f: &mut fmt::Formatter<W>) -> fmt::Result {
        let id = self.id.hyphenated();
        write!(f, "{id}")
    }
}
