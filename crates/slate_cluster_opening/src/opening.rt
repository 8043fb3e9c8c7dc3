//! The state as a run begins, or why databases can't begin one.
ghost use Rattle.std.specs.Prelude.{◌≡◌, [], true, IfOk, IfSome, option_map};
ghost use Rattle.std.specs.List.{list_all};
ghost use Rattle.slate_cluster_protocol.specs.Specs as opens;
ghost use Rattle.slate_cluster_protocol.specs.Specs.{is_named_spec};
ghost use Rattle.slate_ids.specs.Ids.{is_db_path};
ghost use Rattle.slate_cluster_opening.specs.Opened.{OpensState};

use crate::carried::Carried;
use crate::causes::cause_beside;
use crate::ids::are_ulids_fine;
use crate::new_error::NewError;
use crate::objects::{open_objects, open_store};
use crate::opening_ids::open_carried;
use crate::tallies::Tallies;
use slate_cluster_protocol::Tally;
use slate_ids::OutOfMemory;
use slate_script_events::{ClusterCause, DbSpec};
use slate_store::MemoryStore;
use std::alloc::Global;

/// What stands as a run begins.
#[derive(Drop)]
pub struct Opening {
    /// The databases by path, each with its first manifest committed, and its first record where it has one.
    pub tallies: Tallies,
    /// The ids that the databases carry, which nobody brings.
    pub carried: Carried,
    /// The first manifests, the first records and the tables.
    pub store: MemoryStore,
}

// What is committed of a database as a run begins.
fn first_tally(spec: &DbSpec) -> Tally
    ensures { result ≡ opens.first_tally spec.now }
{
    Tally {
        manifest: 1,
        compactions: match &spec.compactions {
            None => 0,
            Some(_) => 1,
        },
    }
}

// The databases by path, each with its first numbers. None where a path comes twice.
fn open_tallies(alloc: Global, specs: &[DbSpec]) -> Result<Option<Tallies>, OutOfMemory>
    ensures tallies { IfOk result (λ o. option_map (λ t. t.entries) o ≡ opens.tallies_from [] specs.now) }
    ensures named { IfOk result (λ o. IfSome o (λ tallies. list_all (λ spec. is_db_path spec.path) specs.now ≡ true)) }
{
    let mut tallies = Tallies::new(alloc);
    for spec in specs {
        if tallies.contains_key(&spec.path) {
            return Ok(None);
        }
        let _ = spec.path.letters();
        tallies.insert(spec.path, first_tally(spec))?;
    }
    Ok(Some(tallies))
}

/// What stands as a run of these databases begins, or the first cause that refuses them.
#[tactic(auto, using(crate::proofs::Named::all_named))]
pub fn opened(alloc: Global, specs: &[DbSpec]) -> Result<Opening, NewError>
    // The state is that of these databases; or they are refused by the first cause.
    ensures opens { OpensState specs.now result }
    // Each has a name, and the ids of its tables are ids.
    ensures named { IfOk result (λ opening. list_all is_named_spec specs.now ≡ true) }
{
    let Some(tallies) = open_tallies(alloc, specs)? else {
        return Err(NewError::BadCluster(ClusterCause::Path));
    };
    let Some(carried) = open_carried(alloc, specs)? else {
        return Err(NewError::BadCluster(ClusterCause::Ids));
    };
    if !are_ulids_fine(alloc, specs)? {
        return Err(NewError::BadCluster(ClusterCause::Ids));
    }
    let Some(objects) = open_objects(alloc, specs)? else {
        return Err(NewError::BadCluster(ClusterCause::Value));
    };
    if let Some(cause) = cause_beside(&objects, specs) {
        return Err(NewError::BadCluster(cause));
    }
    let store = open_store(alloc, &objects)?;
    Ok(Opening {
        tallies,
        carried,
        store,
    })
}
