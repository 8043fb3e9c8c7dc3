//! The tables that a party uploaded.
ghost use Rattle.std.specs.Prelude.{◌≡◌, ℕ, List, [], Option, option_copied, OnOk, OnErr, IfOk};
ghost use Rattle.slate_cluster_protocol.specs.Uploaded.{info_of, with_upload};
ghost use Rattle.slate_model_tables.specs.declared.ss_table_info.SsTableInfo.{SsTableInfo as Info};

use slate_ids::{OutOfMemory, Ulid};
use slate_model::SsTableInfo;
use std::alloc::Global;
use std::collections::BTreeMap;
use std::marker::Model;

/// A table that a party puts, and what is known of it.
#[derive(Drop)]
pub struct Upload {
    pub table: Ulid,
    pub info: SsTableInfo,
}

/// The tables that a party uploaded, by their ids, each with what is known of it.
#[derive(Drop)]
pub struct Uploads {
    infos: BTreeMap<Ulid, SsTableInfo>,
}

impl Model for Uploads {
    ghost use Rattle.std.specs.Prelude.{List, ℕ};
    ghost use Rattle.slate_model_tables.specs.declared.ss_table_info.SsTableInfo.{SsTableInfo as Content};

    ghost Value = { List ((ℕ × ℕ) × Content) };

    ghost view = { λ a. a.infos.entries };
}

impl Uploads {
    /// No tables. Takes no memory.
    pub fn new(alloc: Global) -> Uploads
        ensures { result ≡ [] }
    {
        Uploads {
            infos: BTreeMap::new(alloc),
        }
    }

    /// What is known of a table, where it was uploaded.
    pub fn get(&self, table: &Ulid) -> Option<&SsTableInfo>
        ensures { option_copied result ≡ info_of table.now self.now }
    {
        self.infos.get(table)
    }

    /// Notes an upload, and tells what was known of its table before. Running out of memory changes nothing.
    pub fn note(&mut self, upload: Upload) -> Result<Option<SsTableInfo>, OutOfMemory>
        ensures ok { OnOk result (self.new ≡ with_upload upload self.old) }
        ensures before { IfOk result (λ before. before ≡ info_of upload.table self.old) }
        ensures err { OnErr result (self.new ≡ self.old) }
    {
        Ok(self.infos.insert(upload.table, upload.info)?)
    }

    /// Takes back the last upload that was noted: what was known of its table before is known again. Takes no memory.
    pub fn take_back(&mut self, table: &Ulid, before: Option<SsTableInfo>)
        ensures { (earlier : List ((ℕ × ℕ) × Info)) (info : Info)
            → self.old ≡ with_upload (record { table = table.now; info = info }) earlier
            → before ≡ info_of table.now earlier → self.new ≡ earlier }
    {
        match before {
            None => {
                self.infos.remove(table);
            }
            Some(info) => {
                if let Some(known) = self.infos.get_mut(table) {
                    *known = info;
                }
            }
        }
    }
}
