//! The bytes of records of compactions, and whether a record is its own normal form.
#![tactic(auto)]

mod laws;
mod normality;
mod record_fields;
mod record_normal;
mod record_reading;
mod record_writing;

pub use laws::normal_records;
pub use normality::is_normal_record;
pub use record_normal::normal_form_compactions;
pub use record_reading::decode_compactions;
pub use record_writing::encode_compactions;
