//! A holder of a version.
ghost use Rattle.std.specs.Prelude.{◌≡◌, IfOk, IfErr, true};
ghost use Rattle.slate_ids.specs.Answers.{is_memory};
ghost use Rattle.slate_txn.specs.Holder.{at_version};

use slate_ids::{ObjectCodec, SlateDBError};
use slate_txn_log::{Rules, Sequenced};
use std::alloc::Global;
use std::marker::Model;

/// The version of a log that was read or committed last, with the log and its rules.
#[derive(Drop)]
pub struct Stored<T, C, R> {
    pub(crate) sequenced: Sequenced<T, C>,
    pub(crate) rules: R,
    pub(crate) id: u64,
    pub(crate) object: T,
}

impl<T, C, R> Model for Stored<T, C, R> {
    ghost use Rattle.slate_txn.specs.Holder.{Holder};

    ghost Value = { Holder T C R };

    ghost view = { λ a. record { sequenced = a.sequenced; rules = a.rules; id = a.id; object = a.object } };
}

/// A value that is to follow the version of this number.
#[derive(Debug, Drop)]
pub struct DirtyObject<T> {
    pub id: u64,
    pub value: T,
}

impl<T: Drop, C: Drop, R: Drop> Stored<T, C, R> {
    // The log.
    pub(crate) fn sequenced(&self) -> &Sequenced<T, C>
        ensures { result.now ≡ self.now.sequenced }
    {
        &self.sequenced
    }

    // Holds this version.
    pub(crate) fn hold(&mut self, id: u64, object: T)
        ensures { self.new ≡ at_version self.old id object }
    {
        self.id = id;
        self.object = object;
    }
}

impl<T: Drop, C: ObjectCodec<T> + Drop, R: Rules<T> + Drop> Stored<T, C, R> {
    /// The number of the version held.
    pub fn id(&self) -> u64
        ensures { result ≡ self.now.id }
    {
        self.id
    }

    /// The value of the version held.
    pub fn object(&self) -> &T
        ensures { result.now ≡ self.now.object }
    {
        &self.object
    }

    /// The number held and a copy of the value held, to be changed and put by an update.
    pub fn prepare_dirty(&self, alloc: Global) -> Result<DirtyObject<T>, SlateDBError>
        ensures id { IfOk result (λ dirty. dirty.id ≡ self.now.id) }
        ensures value { IfOk result (λ dirty. dirty.value ≡ self.now.object) }
        ensures memory { IfErr result (λ e. is_memory e ≡ true) }
    {
        Ok(DirtyObject {
            id: self.id,
            value: self.sequenced.codec.copy(alloc, &self.object)?,
        })
    }
}
