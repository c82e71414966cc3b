//! `ShownRoot`: what explanations show of a trusted root, read once for many bundles.
ghost use Rattle.std.specs.Prelude.{◌≡◌, IfOk, option_map};
ghost use Rattle.sig_explain_verify.specs.Parts.{root_in};
ghost use Rattle.sig_explain_verify.specs.ShownRoot.{IsShownRoot, authorities_in, pool_in, root_fault_in};

use crate::trust::{TrustParts, trust_in};
use sig_base::OutOfMemory;
use sig_certificate::Certificate;
use sig_document_fault::root_fault;
use sig_json::JsonError;
use sig_root::{TrustedRoot, read_trusted_root};
use sig_table::DocumentFault;
use sig_x509::CertificatePool;
use std::alloc::Global;

/// What explanations show of a trusted root at a time, or of a text that is not one. It is read once, by
/// [`ShownRoot::read`], for all bundles that are explained under it.
#[derive(Drop)]
pub struct ShownRoot {
    /// What is wrong with the text.
    pub(crate) fault: Option<DocumentFault>,
    /// The trusted root that it is.
    pub(crate) root: Option<TrustedRoot>,
    /// What the trusted root gives at the time.
    pub(crate) trust: Option<TrustParts>,
}

impl ShownRoot {
    /// Returns what is shown of this text, a trusted root, at a time in whole seconds since 1970. A text that is one is
    /// read once; the fault of another is found in a second pass. Fails only if out of memory.
    pub fn read(alloc: Global, text: &[u8], now: i64) -> Result<ShownRoot, OutOfMemory>
        ensures { IfOk result (IsShownRoot text.now now) }
    {
        let root = read_root(alloc, text)?;
        let trust = trust_in(alloc, &root, now)?;
        let fault = fault_of(alloc, text, &root)?;
        Ok(ShownRoot { fault, root, trust })
    }

    /// The certificates of the authorities that have begun, if each can be read.
    pub(crate) fn authorities(&self) -> Option<&[Certificate]>
        ensures { option_map (λ certificates. certificates.now) result ≡ authorities_in self.now }
    {
        match &self.trust {
            Some(parts) => match &parts.authorities {
                Some(certificates) => Some(certificates.as_slice()),
                None => None,
            },
            None => None,
        }
    }

    /// The pool of these, if each is a trust anchor.
    pub(crate) fn pool(&self) -> Option<&CertificatePool>
        ensures { option_map (λ pool. pool.now) result ≡ pool_in self.now }
    {
        match &self.trust {
            Some(parts) => match &parts.pool {
                Some(pool) => Some(pool),
                None => None,
            },
            None => None,
        }
    }
}

/// The trusted root that a text is; `None` if it is not one.
fn read_root(alloc: Global, text: &[u8]) -> Result<Option<TrustedRoot>, OutOfMemory>
    ensures { IfOk result (λ root. root ≡ root_in text.now) }
{
    match read_trusted_root(alloc, text) {
        Ok(root) => Ok(Some(root)),
        Err(JsonError::NotJson | JsonError::Float | JsonError::Member) => Ok(None),
        Err(JsonError::OutOfMemory) => Err(OutOfMemory),
    }
}

/// What is wrong with a text that is not a trusted root.
fn fault_of(
    alloc: Global,
    text: &[u8],
    root: &Option<TrustedRoot>,
) -> Result<Option<DocumentFault>, OutOfMemory>
    requires { root.now ≡ root_in text.now }
    ensures { IfOk result (λ fault. fault ≡ root_fault_in text.now) }
{
    match root {
        Some(_) => Ok(None),
        None => root_fault(alloc, text),
    }
}
