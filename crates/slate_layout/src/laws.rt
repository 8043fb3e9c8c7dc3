//! What follows from the definitions of the layout alone.
ghost use Rattle.std.specs.Prelude.{◌≡◌, ◌↔◌, true, ℕ, List, [], None};
ghost use Rattle.slate_model_tables.specs.Views.{View};
ghost use Rattle.slate_model.specs.declared.manifest.Manifest.{Manifest as AnyManifest};
ghost use Rattle.slate_layout_parts.specs.Reading.{list_in};
ghost use Rattle.slate_layout_parts.specs.Reads.{AreBytes};
ghost use Rattle.slate_layout_parts.specs.Shortcut.{counted_items_in};
ghost use Rattle.slate_layout_manifests.specs.Gathered.{gathered};
ghost use Rattle.slate_layout_manifests.specs.OldManifests.{old_view_in, old_views_in, old_run_in};
ghost use Rattle.slate_layout_manifests.specs.Unequal.{HaveUnequal};
ghost use Rattle.slate_layout_encodable.specs.Normal.{normal_manifest, is_normal};
ghost use Rattle.slate_layout_encoding.specs.Encoding.{encoded_manifest};

/// The normal form of a manifest is its own normal form, and has the same bytes, or the same first field that has none. The test is true
/// of exactly the manifests that are their own normal form.
pub fn normal_laws()
    ensures again { (m : AnyManifest) → normal_manifest (normal_manifest m) ≡ normal_manifest m }
    ensures same { (m : AnyManifest) → encoded_manifest (normal_manifest m) ≡ encoded_manifest m }
    ensures test { (m : AnyManifest) → (is_normal m ≡ true) ↔ (normal_manifest m ≡ m) }
{}

/// The tables of views are gathered, each once, but for one case: nothing is gathered exactly where two views of one table have unequal
/// handles. Then a manifest has no bytes (Handles), and bytes of version 1 stand for no manifest.
pub fn unequal_handles()
    ensures { (views : List View) → (gathered views [] ≡ None) ↔ HaveUnequal views }
{}

/// A list of version 1 whose count is refused by the number of bytes that are left, before any item is read, has an item that can't be
/// read: so the look at the bytes that are left loses none.
pub fn first_version_lists()
    ensures views { (bytes : List ℕ) → AreBytes bytes
        → old_views_in bytes ≡ counted_items_in old_view_in bytes }
    ensures runs { (bytes : List ℕ) → AreBytes bytes
        → list_in old_run_in 4 bytes ≡ counted_items_in old_run_in bytes }
{}
