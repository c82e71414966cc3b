//! The table is that of manifests. There is no code here.
ghost use Rattle.std.specs.Prelude.{◌≡◌, ◌↔◌, ℕ, List, None, is_some};
ghost use Rattle.sig_json.specs.Data.{Data};
ghost use Rattle.sig_json.specs.NamedTree.{IsNamedTree};
ghost use Rattle.sig_manifest.specs.Manifest.{with_accepted};
ghost use Rattle.sig_manifest_fault.specs.ManifestFault.{IsManifest, manifest_fault_in};
ghost use Rattle.sig_manifest_fault.specs.ManifestTable.{manifest_table};
ghost use Rattle.sig_request.specs.Accepted.{with_rows};
ghost use Rattle.sig_table.specs.Table.{fits};

/// A tree, as that of any document is, keeps to the table of manifests if and only if it means a manifest, whatever its
/// artifacts name. And nothing is wrong with a text if and only if it is a manifest.
pub fn manifests()
    ensures table { (d : Data) → IsNamedTree d → fits manifest_table d ≡ is_some (with_rows with_accepted d) }
    ensures text { (text : List ℕ) → (manifest_fault_in text ≡ None) ↔ IsManifest text }
{}
