//! What `cosign` stores beside a container image, as checked layers: a payload with its signature, the signer that a
//! certificate names, and what a log promised or proved about the signature.
//!
//! ```text
//! descriptor  {"mediaType":"application/vnd.dev.cosign.simplesigning.v1+json","digest":"sha256:3fbd..",
//!              "annotations":{"dev.cosignproject.cosign/signature":"MEUCIQ==",
//!                             "dev.sigstore.cosign/bundle":"{\"SignedEntryTimestamp\":..}"}}
//! layer       {"critical":{"identity":{"docker-reference":"registry.example/image"},..},"optional":null}
//! ```
//!
//! The layer above uses three facts. A layer is made of a descriptor and its bytes if and only if media types, digest,
//! payload, image and signature annotation are as they have to be and the claimed promise of a log is signed; and else
//! the first broken rule is the error. The layers of a manifest are those that are made of each descriptor with the
//! first layer of its digest, in the order of the descriptors. A layer is signed by a key if and only if the checker
//! accepts its signature over its raw data. **A layer does not tie its certificate, what a log promised and its
//! signature together**: only [`SignatureLayer::is_signed_by_key`] checks a signature over the layer.
#![tactic(auto)]

mod bundle_content;
mod bundle_layer;
mod manifest;
mod oci_layer;
mod show;
mod signature_layer;
mod signers;
mod source;
mod unsigned;

pub use bundle_content::BundleContent;
pub use manifest::{Layers, build_signature_layers};
pub use sig_payload::{
    Bundle, CRITICAL_TYPE_NAME, Critical, Identity, Image, Optional, Payload, SignedArtifactBundle,
    SimpleSigning,
};
pub use sig_signer::{CertificateSignature, CertificateSubject};
pub use signature_layer::SignatureLayer;
pub use source::{ImageLayer, OciDescriptor};
