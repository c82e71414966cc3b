//! What is shown of a layer.
//!
//! ```text
//! ---
//! # SignatureLayer
//! ## digest
//! sha256:3fbd..
//!
//! ## signature
//! MEUCIQ==
//!
//! ## bundle:
//! RekorBundle
//!
//! ## certificate signature
//! None
//!
//! ## Simple Signing
//! {
//!   "critical": { .. },
//!   "optional": null
//! }
//! ---
//! ```
//!
//! The bytes are tested, but not stated by a clause.
use crate::bundle_content::BundleContent;
use crate::signature_layer::SignatureLayer;
use std::fmt;

/// Shows the layer's parts, each under a heading: a bundle only by its kind, the others by their own Display. Texts of
/// the layer are shown unescaped, so one can look like a part: it is not for programs to read.
impl fmt::Display for SignatureLayer {
    fn fmt<W: fmt::Write>(&self, f: &mut fmt::Formatter<W>) -> fmt::Result {
        f.write_str("---\n# SignatureLayer\n## digest\n")?;
        f.write_str(self.oci_digest.as_str())?;
        f.write_str("\n\n## signature\n")?;
        match &self.signature {
            Some(signature) => f.write_str(signature.as_str())?,
            None => f.write_str("None")?,
        }
        f.write_str("\n\n## bundle:\n")?;
        f.write_str(bundle_kind(&self.bundle))?;
        f.write_str("\n\n## certificate signature\n")?;
        match &self.certificate_signature {
            Some(signer) => fmt::Display::fmt(signer, f)?,
            None => f.write_str("None")?,
        }
        f.write_str("\n\n## Simple Signing\n")?;
        fmt::Display::fmt(&self.simple_signing, f)?;
        f.write_str("\n---")
    }
}

fn bundle_kind(bundle: &Option<BundleContent>) -> &'static str {
    match bundle {
        Some(BundleContent::RekorBundle(_)) => "RekorBundle",
        Some(BundleContent::SigstoreBundle(_)) => "SigstoreBundle",
        None => "None",
    }
}
