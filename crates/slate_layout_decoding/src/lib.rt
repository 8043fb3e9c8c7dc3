//! Manifests read from bytes, of both versions of the layout.
#![tactic(auto)]

mod decode;
mod first_version;
mod second_version;

pub use decode::decode_manifest;
