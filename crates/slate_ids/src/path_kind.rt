//! What stands after a database and `/` in the paths of the kinds with a name.
ghost use Rattle.std.specs.Prelude.{◌≡◌, option_map};
ghost use Rattle.slate_ids.specs.PathText.{front_of, suffix_of};
ghost use Rattle.slate_ids.specs.PathKind.{kind_of, middle, number_in_folder, single_of, table_of, twenty_of};

use crate::decimals::number_below;
use crate::folder::{Folder, MANIFEST_BOUNDARY, MARKER, RECORD_BOUNDARY};
use crate::ulid::Ulid;

/// What a path of a kind with a name is, its database apart.
#[derive(Clone, Copy)]
pub(crate) enum PathKind {
    Manifest(u64),
    Record(u64),
    ManifestBoundary,
    RecordBoundary,
    Table(Ulid),
    Wal(u64),
    Marker,
}

// The name in a text that begins and ends as those of a folder do.
#[tactic(auto, unfolding(crate::specs::PathKind::middle, crate::specs::PathKind::strip_front, crate::specs::PathKind::strip_end))]
fn name_in(folder: Folder, text: &[u8]) -> Option<&[u8]>
    ensures { option_map (λ name. name.now) result ≡ middle (front_of folder) (suffix_of folder) text.now }
{
    let named = text.strip_prefix(folder.front().as_bytes())?;
    named.strip_suffix(folder.suffix().as_bytes())
}

// The number of twenty digits, below 2^64.
#[tactic(auto, unfolding(crate::specs::PathKind::twenty_of))]
fn twenty_of(text: &[u8]) -> Option<u64>
    ensures { result ≡ twenty_of text.now }
{
    if text.len() != 20 {
        return None;
    }
    let number = number_below(text, 1 << 64)?;
    Some(number as u64)
}

// The number that names an object of a folder.
#[tactic(auto, unfolding(crate::specs::PathKind::number_in_folder))]
fn number_in_folder(folder: Folder, text: &[u8]) -> Option<u64>
    ensures { result ≡ number_in_folder folder text.now }
{
    twenty_of(name_in(folder, text)?)
}

// The id that names a table.
#[tactic(auto, unfolding(crate::specs::PathKind::table_of))]
fn table_of(text: &[u8]) -> Option<Ulid>
    ensures { result ≡ table_of text.now }
{
    Ulid::from_letters(name_in(Folder::Tables, text)?)
}

// The kinds of one object each.
#[tactic(auto, unfolding(crate::specs::PathKind::single_of))]
fn single_of(text: &[u8]) -> Option<PathKind>
    ensures { result ≡ single_of text.now }
{
    if text == MANIFEST_BOUNDARY.as_bytes() {
        Some(PathKind::ManifestBoundary)
    } else if text == RECORD_BOUNDARY.as_bytes() {
        Some(PathKind::RecordBoundary)
    } else if text == MARKER.as_bytes() {
        Some(PathKind::Marker)
    } else {
        None
    }
}

/// The kind whose form a text has.
#[tactic(auto, unfolding(crate::specs::PathKind::kind_of))]
pub(crate) fn kind_of(text: &[u8]) -> Option<PathKind>
    ensures { result ≡ kind_of text.now }
{
    if let Some(n) = number_in_folder(Folder::Manifests, text) {
        return Some(PathKind::Manifest(n));
    }
    if let Some(n) = number_in_folder(Folder::Records, text) {
        return Some(PathKind::Record(n));
    }
    if let Some(n) = number_in_folder(Folder::Wals, text) {
        return Some(PathKind::Wal(n));
    }
    if let Some(id) = table_of(text) {
        return Some(PathKind::Table(id));
    }
    single_of(text)
}
