//! `SigstoreTrustRoot`: a trusted root that is read from its text.
ghost use Rattle.std.specs.Prelude.{◌≡◌, Ok, Err, IfOk};
ghost use Rattle.sig_base.specs.Answers.{Answers, ComesWhere, UnlessMemory};
ghost use Rattle.sig_base.specs.declared.fault.PkiFault.TheVariants.{NotReadable, TrustedRootMissing};
ghost use Rattle.sig_root.specs.ClientConfig.{HasConfiguredRoot, IsClientConfig, LacksConfiguredRoot};
ghost use Rattle.sig_root.specs.ClientConfig.{configured_root_of_text};
ghost use Rattle.sig_root.specs.declared.record.TrustedRoot.{TrustedRoot as root_type};
ghost use Rattle.sig_root.specs.Picked.{authority_certificates, keys_of, unless_empty};
ghost use Rattle.sig_root.specs.RootRecord.{trusted_root_of_text};
ghost use Rattle.sig_base.specs.declared.fault.TrustPart.TheVariants.{Fulcio, Ctfe};

use crate::client_config::read_configured_root;
use crate::picked::{pick_certificates, pick_keys};
use crate::read::read_trusted_root;
use crate::record::TrustedRoot;
use crate::trust_root::TrustRoot;
use sig_base::{Entries, KeyMap, Result, SigstoreError, TrustPart};
use sig_json::JsonError;
use std::alloc::Global;
use std::marker::Model;

/// A trusted root of Sigstore. Contracts see its record.
#[derive(Drop)]
pub struct SigstoreTrustRoot {
    root: TrustedRoot,
}

impl Model for SigstoreTrustRoot {
    ghost use Rattle.sig_root.specs.declared.record.TrustedRoot.{TrustedRoot as root_type};

    ghost Value = { root_type };

    ghost view = { λ r. r.root };
}

impl SigstoreTrustRoot {
    /// Returns the trusted root that a text is, as `read_trusted_root` reads it. It does not check who made the text.
    /// Errors:
    ///
    /// - `SerdeJsonError` if and only if the text is not a trusted root, unless memory runs out;
    /// - `OutOfMemory`.
    pub fn from_trusted_root_json_unchecked(alloc: Global, json: &[u8]) -> Result<SigstoreTrustRoot>
        ensures { Answers SigstoreError.OutOfMemory (λ root. root) result (trusted_root_of_text json.now) }
    {
        match read_trusted_root(alloc, json) {
            Ok(root) => Ok(SigstoreTrustRoot { root }),
            Err(JsonError::OutOfMemory) => Err(SigstoreError::OutOfMemory),
            Err(_) => Err(SigstoreError::SerdeJsonError),
        }
    }

    /// Returns the trusted root of a client's configuration (Sigstore trust root format, ClientTrustConfig), a JSON
    /// object with the member `trustedRoot`, which is read as `read_trusted_root` reads it. The other members of the
    /// configuration are ignored, and no tree is made of them. It does not check who made the text. Errors, each a
    /// `SigstorePKIFileMalformedError`, unless memory runs out:
    ///
    /// - of `NotReadable` if and only if the text is not such a configuration: it is not JSON without floats, no
    ///   object, or its `trustedRoot` is there, not null and not a trusted root;
    /// - of `TrustedRootMissing` if and only if it is one whose `trustedRoot` is absent or null;
    /// - `OutOfMemory`.
    pub fn from_client_trust_config(alloc: Global, json: &[u8]) -> Result<SigstoreTrustRoot>
        ensures found { IfOk result (λ root. HasConfiguredRoot json.now root) }
        ensures only { (root : root_type) → HasConfiguredRoot json.now root → UnlessMemory SigstoreError.OutOfMemory
            result (result ≡ Ok root) }
        ensures missing { ComesWhere SigstoreError.OutOfMemory result
            (Err (SigstoreError.SigstorePKIFileMalformedError TrustedRootMissing)) (LacksConfiguredRoot json.now) }
        ensures unreadable { ComesWhere SigstoreError.OutOfMemory result
            (Err (SigstoreError.SigstorePKIFileMalformedError NotReadable)) (¬ IsClientConfig json.now) }
        // The same in one equation.
        ensures answer { Answers SigstoreError.OutOfMemory (λ root. root) result (configured_root_of_text json.now) }
    {
        read_config(alloc, json)
    }

    /// The trust root of a trusted root that was read.
    pub fn of(root: TrustedRoot) -> SigstoreTrustRoot
        ensures { result ≡ root }
    {
        SigstoreTrustRoot { root }
    }
}

/// The trust root of a client's configuration.
fn read_config(alloc: Global, json: &[u8]) -> Result<SigstoreTrustRoot>
    ensures { Answers SigstoreError.OutOfMemory (λ root. root) result (configured_root_of_text json.now) }
{
    let root = read_configured_root(alloc, json)?;
    Ok(SigstoreTrustRoot { root })
}

impl TrustRoot for SigstoreTrustRoot {
    ghost authorities_at = { λ root now. unless_empty Fulcio
        (authority_certificates now root.certificate_authorities) };

    ghost log_keys_at = { λ root now. Ok (keys_of now root.tlogs) };

    ghost ct_keys_at = { λ root now. unless_empty Ctfe (keys_of now root.ctlogs) };

    /// Returns all certificates, in order, of the authorities whose range has begun. Fails with
    /// `TufMetadataError(Fulcio)` if and only if there is none, unless memory runs out.
    fn fulcio_certs(&self, alloc: Global, now: i64) -> Result<Entries> {
        let list = pick_certificates(alloc, self.root.certificate_authorities.as_slice(), now)?;
        if list.len() == 0 {
            return Err(SigstoreError::TufMetadataError(TrustPart::Fulcio));
        }
        Ok(list)
    }

    /// Returns the keys of the logs of signatures whose range holds. Of equal log ids the last counts.
    fn rekor_keys(&self, alloc: Global, now: i64) -> Result<KeyMap> {
        Ok(pick_keys(alloc, self.root.tlogs.as_slice(), now)?)
    }

    /// Returns the keys of the Certificate Transparency logs whose range holds. Of equal log ids the last
    /// counts. Fails with `TufMetadataError(Ctfe)` if and only if there is none, unless memory runs out.
    fn ctfe_keys(&self, alloc: Global, now: i64) -> Result<KeyMap> {
        let keys = pick_keys(alloc, self.root.ctlogs.as_slice(), now)?;
        if keys.len() == 0 {
            return Err(SigstoreError::TufMetadataError(TrustPart::Ctfe));
        }
        Ok(keys)
    }
}
