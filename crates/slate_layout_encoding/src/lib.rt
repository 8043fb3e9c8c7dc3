//! The bytes of a manifest, which are read back as its normal form.
#![tactic(auto)]

mod encode;

pub use encode::encode_manifest;
