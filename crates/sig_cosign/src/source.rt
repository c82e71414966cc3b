//! What a registry holds of a layer: `OciDescriptor` and `ImageLayer` (OCI image specification, "Content Descriptors").

use sig_base::{Bytes, Text, TextMap};

/// A layer of a manifest: its claimed digest and media type, and its annotations.
#[derive(Drop)]
pub struct OciDescriptor {
    /// What kind of bytes the layer is.
    pub media_type: Text,
    /// The digest of its bytes, such as `sha256:` and 64 hexadecimal digits.
    pub digest: Text,
    /// Its annotations, by name.
    pub annotations: TextMap,
    /// The certificate (DER) of the annotation `dev.sigstore.cosign/certificate`, which is PEM and is not read here.
    pub certificate_der: Option<Bytes>,
}

/// A layer as it was fetched.
#[derive(Drop)]
pub struct ImageLayer {
    /// What kind of bytes it is.
    pub media_type: Text,
    /// The bytes that the registry sent.
    pub bytes: Bytes,
}
