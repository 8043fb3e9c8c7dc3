//! A version of a database's log of records.
ghost use Rattle.std.specs.Prelude.{◌≡◌};

use crate::compactions::Compactions;
use slate_ids::OutOfMemory;
use slate_model_tables::Plain;
use std::alloc::Global;
use std::marker::Model;

/// A version of a database's log of records: its number and its record.
#[derive(Debug, Drop)]
pub struct VersionedCompactions {
    id: u64,
    compactions: Compactions,
}

impl Model for VersionedCompactions {
    ghost use Rattle.slate_model_records.specs.Records.{Version};

    ghost Value = { Version };

    ghost view = { λ a. record { id = a.id; compactions = a.compactions } };

    ghost inverse = { λ d. record { id = d.id; compactions = d.compactions } };
}

impl VersionedCompactions {
    /// The version of this number. Takes no memory.
    pub fn new(id: u64, compactions: Compactions) -> VersionedCompactions
        ensures { result ≡ record { id = id; compactions = compactions } }
    {
        VersionedCompactions { id, compactions }
    }

    /// The version's number.
    pub fn id(&self) -> u64
        ensures { result ≡ self.now.id }
    {
        self.id
    }

    /// The record.
    pub fn compactions(&self) -> &Compactions
        ensures { result.now ≡ self.now.compactions }
    {
        &self.compactions
    }
}

impl Plain for VersionedCompactions {
    fn clone(&self, alloc: Global) -> Result<VersionedCompactions, OutOfMemory> {
        Ok(VersionedCompactions {
            id: self.id,
            compactions: self.compactions.clone(alloc)?,
        })
    }

    fn is(&self, other: &VersionedCompactions) -> bool {
        self.id == other.id && self.compactions.is(&other.compactions)
    }
}
