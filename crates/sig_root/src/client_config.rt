//! The trusted root of a client's configuration.
//!
//! ```text
//! {"mediaType":"application/vnd.dev.sigstore.clienttrustconfig.v0.1+json",
//!  "trustedRoot":{"tlogs":[{"publicKey":{"rawBytes":"MFkw.."},"logId":{"keyId":"wNI9.."}}]},
//!  "signingConfig":{"caUrl":"https://fulcio.example.com"}}
//! ```
ghost use Rattle.std.specs.Prelude.{Option};
ghost use Rattle.sig_base.specs.Answers.{Answers};
ghost use Rattle.sig_base.specs.declared.error.SigstoreError.TheVariants.{OutOfMemory as Memory};
ghost use Rattle.sig_json.specs.Data.{Data};
ghost use Rattle.sig_json.specs.Tree.{tree};
ghost use Rattle.sig_root.specs.ClientConfig.{configured_root_in, configured_root_of, configured_root_of_text};

use crate::read::RootReader;
use crate::record::TrustedRoot;
use sig_base::{PkiFault, Result, SigstoreError};
use sig_json::{ElementReader, Json, JsonError, MemberError, optional, read_record_with};
use std::alloc::Global;

/// The name of the member that is read. No tree is made of other members.
const MEMBERS: [&str; 1] = ["trustedRoot"];

/// Reads the trusted roots of configurations.
enum ConfigReader {}

impl ElementReader for ConfigReader {
    type Item = Option<TrustedRoot>;

    ghost meaning = { configured_root_of };

    #[tactic(auto, unfolding(crate::specs::ClientConfig::configured_root_of))]
    fn read(
        alloc: Global,
        json: Json<'_, '_>,
    ) -> std::result::Result<Option<TrustedRoot>, MemberError> {
        optional::<RootReader>(alloc, json, "trustedRoot")
    }
}

/// The trusted root that a configuration has to have.
pub(crate) fn read_configured_root(alloc: Global, text: &[u8]) -> Result<TrustedRoot>
    ensures { Answers Memory (λ root. root) result (configured_root_of_text text.now) }
{
    match read_config(alloc, text) {
        Ok(Some(root)) => Ok(root),
        Ok(None) => Err(SigstoreError::SigstorePKIFileMalformedError(PkiFault::TrustedRootMissing)),
        Err(JsonError::OutOfMemory) => Err(SigstoreError::OutOfMemory),
        Err(JsonError::NotJson | JsonError::Float | JsonError::Member) => Err(
            SigstoreError::SigstorePKIFileMalformedError(PkiFault::NotReadable),
        ),
    }
}

/// The trusted root that a configuration has, if any.
fn read_config(alloc: Global, text: &[u8]) -> std::result::Result<Option<TrustedRoot>, JsonError>
    ensures { Answers JsonError.OutOfMemory (λ root. root) result (configured_root_in text.now) }
{
    read_record_with::<ConfigReader>(alloc, text, &MEMBERS)
}
