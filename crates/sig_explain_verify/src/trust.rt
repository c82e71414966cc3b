//! What a trusted root gives at a time: certificates of authorities, a pool of trust anchors, keys of logs, and what is
//! shown of its logs.
ghost use Rattle.std.specs.Prelude.{◌≡◌, IfOk};
ghost use Rattle.sig_certificate.specs.Certificate.{IsCertificate};
ghost use Rattle.sig_evidence.specs.Logs.{logs_tree};
ghost use Rattle.sig_explain_verify.specs.Parts.{AreReadAll, IsReadOne};
ghost use Rattle.sig_explain_verify.specs.ShownRoot.{IsGivenAt, IsPoolOf, IsTrustIn};
ghost use Rattle.sig_json.specs.Tree.{document_tree};
ghost use Rattle.sig_verify.specs.RootLinks.{authorities, rekor_keys};

use sig_base::{Entries, KeyMap, OutOfMemory, OwnedList, PoolError};
use sig_certificate::{Certificate, X509ReadError};
use sig_evidence::logs_document;
use sig_json::Document;
use sig_root::{TrustedRoot, pick_certificates, pick_keys};
use sig_x509::CertificatePool;
use std::alloc::Global;

/// What a trusted root gives at a time.
#[derive(Drop)]
pub(crate) struct TrustParts {
    /// The keys of the logs of signatures (DER), by their log ids.
    pub(crate) log_keys: KeyMap,
    /// The certificates of the authorities that have begun, if each can be read.
    pub(crate) authorities: Option<OwnedList<Certificate>>,
    /// The same as a pool, if each is a trust anchor.
    pub(crate) pool: Option<CertificatePool>,
    /// What is shown of the Certificate Transparency logs, with the hashes of their keys.
    pub(crate) ctlogs: Document,
    /// Likewise of the logs of signatures.
    pub(crate) tlogs: Document,
}

/// Returns what a trusted root gives at a time; `None` if it is absent. Fails only if out of memory.
pub(crate) fn trust_in(
    alloc: Global,
    root: &Option<TrustedRoot>,
    now: i64,
) -> Result<Option<TrustParts>, OutOfMemory>
    ensures { IfOk result (IsTrustIn root.now now) }
{
    match root {
        Some(root) => {
            let parts = trust_of(alloc, root, now)?;
            Ok(Some(parts))
        }
        None => Ok(None),
    }
}

/// What a trusted root gives at a time.
fn trust_of(alloc: Global, root: &TrustedRoot, now: i64) -> Result<TrustParts, OutOfMemory>
    ensures { IfOk result (IsGivenAt root.now now) }
{
    let ders = authorities_of(alloc, root, now)?;
    let authorities = read_certificates(alloc, &ders)?;
    let pool = pool_of(alloc, &ders)?;
    let log_keys = log_keys_of(alloc, root, now)?;
    let ctlogs = shown_ctlogs(alloc, root, now)?;
    let tlogs = shown_tlogs(alloc, root, now)?;
    Ok(TrustParts {
        log_keys,
        authorities,
        pool,
        ctlogs,
        tlogs,
    })
}

/// The certificates of the authorities that have begun (DER).
fn authorities_of(alloc: Global, root: &TrustedRoot, now: i64) -> Result<Entries, OutOfMemory>
    ensures { IfOk result (λ ders. ders ≡ authorities root.now now) }
{
    pick_certificates(alloc, root.certificate_authorities.as_slice(), now)
}

/// The certificates that these bytes are, one by one; `None` if some are not certificates.
fn read_certificates(
    alloc: Global,
    ders: &Entries,
) -> Result<Option<OwnedList<Certificate>>, OutOfMemory>
    ensures { IfOk result (AreReadAll IsCertificate ders.now) }
{
    let mut certificates = OwnedList::new(alloc);
    'ders: for der in ders.as_slice() {
        match read_certificate(alloc, der.as_slice())? {
            Some(certificate) => certificates.push(certificate)?,
            None => return Ok(None),
        }
    }
    Ok(Some(certificates))
}

/// The certificate that these bytes are.
fn read_certificate(alloc: Global, der: &[u8]) -> Result<Option<Certificate>, OutOfMemory>
    ensures { IfOk result (IsReadOne der.now) }
{
    match Certificate::try_from_der(alloc, der) {
        Ok(certificate) => Ok(Some(certificate)),
        Err(X509ReadError::Der) => Ok(None),
        Err(X509ReadError::OutOfMemory) => Err(OutOfMemory),
    }
}

/// The pool of trust anchors that these bytes are; `None` if some are not trust anchors.
#[tactic(auto, using(sig_verify::proofs::AloneAnchors::alone_anchors))]
fn pool_of(alloc: Global, ders: &Entries) -> Result<Option<CertificatePool>, OutOfMemory>
    ensures { IfOk result (IsPoolOf ders.now) }
{
    let none = Entries::new(alloc);
    match CertificatePool::from_certificates(alloc, ders, &none) {
        Ok(pool) => Ok(Some(pool)),
        Err(PoolError::Anchor(_)) => Ok(None),
        Err(PoolError::OutOfMemory) => Err(OutOfMemory),
        // There are no intermediates, so none is checked for whether it may issue.
        Err(_) => unreachable!(),
    }
}

/// The keys of the logs of signatures.
fn log_keys_of(alloc: Global, root: &TrustedRoot, now: i64) -> Result<KeyMap, OutOfMemory>
    ensures { IfOk result (λ keys. keys ≡ rekor_keys root.now now) }
{
    pick_keys(alloc, root.tlogs.as_slice(), now)
}

/// What is shown of the Certificate Transparency logs.
fn shown_ctlogs(alloc: Global, root: &TrustedRoot, now: i64) -> Result<Document, OutOfMemory>
    ensures { IfOk result (λ document. document_tree document ≡ logs_tree now root.now.ctlogs) }
{
    logs_document(alloc, root.ctlogs.as_slice(), &now)
}

/// What is shown of the logs of signatures.
fn shown_tlogs(alloc: Global, root: &TrustedRoot, now: i64) -> Result<Document, OutOfMemory>
    ensures { IfOk result (λ document. document_tree document ≡ logs_tree now root.now.tlogs) }
{
    logs_document(alloc, root.tlogs.as_slice(), &now)
}
