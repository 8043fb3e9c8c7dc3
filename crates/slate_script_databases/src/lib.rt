//! Databases of scripts: the first manifest of each, its first record, and the tables that stand in the store.
#![tactic(auto)]

mod database;
mod groups;
mod opening_record;
mod opening_tables;
mod prefixes;
mod record_items;
mod tree_items;
mod trees;

pub use database::read_database;
