//! What a Sigstore bundle of `cosign` attests about a container image: a statement of the image's digest, signed by the
//! key of a certificate, and an entry of a log, which vouches for the signature.
//!
//! ```text
//! {"mediaType":"application/vnd.dev.sigstore.bundle.v0.3+json",
//!  "verificationMaterial":{"certificate":{"rawBytes":"MIIB.."},"tlogEntries":[{"logIndex":"900",..}]},
//!  "dsseEnvelope":{"payloadType":"application/vnd.in-toto+json","signatures":[{"sig":"c2lnLWRzc2U="}],
//!    "payload":"eyJfdHlwZSI6..                            {"_type":"https://in-toto.io/Statement/v1",
//!                                  "predicateType":"https://sigstore.dev/cosign/sign/v1",
//!                                  "subject":[{"digest":{"sha256":"ba78.."}}]}
//! ```
//!
//! The layer above uses one fact. The result for a text is the parts of its bundle, if and only if the bundle is one of
//! `cosign` about the image, the log of its entry vouches for the entry by a promise and a proof, and the entry's body
//! is about the envelope and its one signature; and else the first broken rule is the error. Whether the certificate is
//! trusted, and whether its key signed the envelope, is not checked here.
#![tactic(auto)]

mod attestation;
mod body;
mod image;
mod log;
mod material;
mod refusal;
mod stated;

pub use attestation::{Attestation, read_attestation};
