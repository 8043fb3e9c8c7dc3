//! The bytes of manifests, of records of compactions, of what is known of tables, and of boundaries.
#![tactic(auto)]

mod boundary;
mod codec;
mod laws;
mod manifests;
mod record_codec;

pub use boundary::{decode_boundary, encode_boundary};
pub use codec::ManifestCodec;
pub use laws::{first_version_lists, normal_laws, unequal_handles};
pub use manifests::decode_manifest;
pub use record_codec::CompactionsCodec;
pub use slate_layout_encodable::{is_normal, normal_form_manifest};
pub use slate_layout_encoding::encode_manifest;
pub use slate_layout_parts::{decode_info, encode_info};
pub use slate_layout_records::{decode_compactions, encode_compactions, normal_form_compactions};
