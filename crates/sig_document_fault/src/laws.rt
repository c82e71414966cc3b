//! The tables are those of the formats. There is no code here.
ghost use Rattle.sig_bundle.specs.BundleRecord.{bundle_of};
ghost use Rattle.sig_document_fault.specs.BundleTable.{bundle_table};
ghost use Rattle.sig_document_fault.specs.RootTable.{root_table};
ghost use Rattle.sig_root.specs.RootRecord.{trusted_root_of};
ghost use Rattle.sig_table.specs.TableOf.{IsTableOf};

/// A tree keeps to the table of bundles if and only if it is read as a bundle, and to that of trusted roots if and only
/// if it is read as a trusted root.
pub fn tables()
    ensures bundle { IsTableOf bundle_of bundle_table }
    ensures root { IsTableOf trusted_root_of root_table }
{}
