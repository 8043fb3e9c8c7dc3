//! Manifests by their numbers.
ghost use Rattle.std.specs.Prelude.{◌≡◌, ◌∷◌, [], IfOk, OnOk, OnErr};
ghost use Rattle.std.specs.BTreeMap.{insert_entry};
ghost use Rattle.std.specs.Ordering.{nat_cmp};
ghost use Rattle.slate_state_referenced.specs.Referenced.{entries_of};

use slate_ids::{OutOfMemory, SlateDBError};
use slate_model::Manifest;
use std::alloc::Global;
use std::collections::BTreeMap;
use std::marker::Model;

/// Manifests by their numbers, which contracts see as the list of them, ascending.
#[derive(Debug, Drop)]
pub struct ManifestMap {
    manifests: BTreeMap<u64, Manifest>,
}

impl Model for ManifestMap {
    ghost use Rattle.std.specs.Prelude.{List, ℕ};
    ghost use Rattle.slate_model.specs.declared.manifest.Manifest.{Manifest as Content};

    ghost Value = { List (ℕ × Content) };

    ghost view = { λ a. a.manifests.entries };
}

impl ManifestMap {
    /// No manifests. Takes no memory.
    pub fn new(alloc: Global) -> ManifestMap
        ensures { result ≡ [] }
    {
        ManifestMap {
            manifests: BTreeMap::new(alloc),
        }
    }

    /// The ordered map of them.
    pub fn as_map(&self) -> &BTreeMap<u64, Manifest>
        ensures { result.now.entries ≡ self.now }
    {
        &self.manifests
    }

    // The map of this one manifest.
    pub(crate) fn of(
        alloc: Global,
        number: u64,
        manifest: Manifest,
    ) -> Result<ManifestMap, OutOfMemory>
        ensures { IfOk result (λ found. found ≡ (number, manifest) ∷ []) }
    {
        let mut manifests = BTreeMap::new(alloc);
        match manifests.insert(number, manifest) {
            Ok(replaced) => {
                drop(replaced);
                Ok(ManifestMap { manifests })
            }
            Err(e) => {
                drop(e);
                drop(manifests);
                Err(OutOfMemory)
            }
        }
    }

    // Adds a manifest. Running out of memory changes nothing.
    pub(crate) fn add(&mut self, number: u64, manifest: Manifest) -> Result<(), OutOfMemory>
        ensures ok { OnOk result (self.new ≡ insert_entry nat_cmp self.old number manifest) }
        ensures err { OnErr result (self.new ≡ self.old) }
    {
        match self.manifests.insert(number, manifest) {
            Ok(replaced) => {
                drop(replaced);
                Ok(())
            }
            Err(e) => {
                drop(e);
                Err(OutOfMemory)
            }
        }
    }

    /// The ordered map of them. Takes no memory.
    pub fn into_map(self) -> BTreeMap<u64, Manifest>
        ensures { result.entries ≡ self }
    {
        self.manifests
    }
}

/// The ordered map of those that were read.
pub fn into_map(
    reply: Result<ManifestMap, SlateDBError>,
) -> Result<BTreeMap<u64, Manifest>, SlateDBError>
    ensures { entries_of result ≡ reply }
{
    match reply {
        Ok(found) => Ok(found.into_map()),
        Err(e) => Err(e),
    }
}
