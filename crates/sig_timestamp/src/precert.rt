//! The precertificate's TBSCertificate: RFC 6962 section 3.2.
//!
//! ```text
//! TBSCertificate ::= SEQUENCE {
//!      version, serialNumber, .., subjectUniqueID        each as it is in the certificate
//!      extensions  [3] EXPLICIT SEQUENCE OF Extension     without those of 1.3.6.1.4.1.11129.2.4.2 }
//! ```

ghost use Rattle.std.specs.Prelude.{◌≡◌, ℕ, List, [], ◌∷◌, ◌++◌, IfOk, OnOk};
ghost use Rattle.sig_certificate.specs.Certificate.{IsTbsCertificate};
ghost use Rattle.sig_certificate.specs.Lookups.{borrowed_extension};
ghost use Rattle.sig_timestamp.specs.KeptExtensions.{IsPrecertificate};
ghost use Rattle.sig_timestamp.specs.Precert.{precertificate, kept_extensions, kept_of, ders_of, tbs_with};
ghost use Rattle.sig_timestamp.specs.Precert.{HaveSpelling, IsWithoutScts};

use sig_base::{Bytes, OutOfMemory};
use sig_certificate::{Certificate, ExtensionRef};
use sig_der::oid::SCT_LIST;
use sig_der::tag::{EXTENSIONS, SEQUENCE};
use sig_der::write_short;
use std::alloc::{AllocError, Global};

/// Returns the TBSCertificate that a log saw before it issued the certificate's SCT: the certificate's own elements,
/// each byte for byte, without the extensions that list SCTs. Only the lengths of the extensions' element, of its
/// SEQUENCE and of the whole are written anew; if no extension is left, the element is `a3 02 30 00`. Fails only if out
/// of memory.
pub fn precert_tbs_der(alloc: Global, leaf: &Certificate) -> Result<Bytes, OutOfMemory>
    // Every extension except the lists of SCTs is kept, in order, each with its bytes, and every part before them.
    ensures kept { IfOk result (IsPrecertificate leaf.now) }
    // No other bytes are such a TBSCertificate.
    ensures only { (tbs : List ℕ) → IsPrecertificate leaf.now tbs → IfOk result (λ t. t ≡ tbs) }
    ensures is { IfOk result (λ t. t ≡ precertificate leaf.now) }
    ensures keeps { IfOk result (IsWithoutScts leaf.now) }
{
    // What is written anew is not longer than what a certificate holds, so that its lengths have a spelling.
    leaf.is_certificate();
    precertificate(alloc, leaf)
}

fn precertificate(alloc: Global, leaf: &Certificate) -> Result<Bytes, OutOfMemory>
    requires { IsTbsCertificate leaf.now }
    ensures { IfOk result (λ t. t ≡ precertificate leaf.now) }
{
    if leaf.is_listed() {
        made_anew(alloc, leaf)
    } else {
        Bytes::copy_of(alloc, leaf.tbs())
    }
}

/// Returns the TBSCertificate with the element of the extensions made anew.
fn made_anew(alloc: Global, leaf: &Certificate) -> Result<Bytes, OutOfMemory>
    requires { HaveSpelling leaf.now }
    ensures { IfOk result (λ t. t ≡ tbs_with leaf.now (kept_extensions leaf.now)) }
{
    let kept = kept_extensions(alloc, leaf)?;
    let list = write_short(alloc, SEQUENCE, &kept)?;
    let extensions = write_short(alloc, EXTENSIONS, list.as_slice())?;
    let mut elements = Vec::from_slice(alloc, leaf.front())?;
    elements.extend_from_slice(extensions.as_slice())?;
    write_short(alloc, SEQUENCE, &elements)
}

/// Returns the extensions that do not list SCTs, one after another.
fn kept_extensions(alloc: Global, leaf: &Certificate) -> Result<Vec<u8>, OutOfMemory>
    ensures { IfOk result (λ v. v.items ≡ ders_of (kept_extensions leaf.now)) }
{
    let mut kept = Vec::new(alloc);
    for extension in leaf.extensions() {
        push_kept(&mut kept, extension)?;
    }
    Ok(kept)
}

/// Appends the extension, unless it lists SCTs.
fn push_kept(kept: &mut Vec<u8>, extension: ExtensionRef<'_>) -> Result<(), AllocError>
    ensures { OnOk result (kept.new.items ≡ kept.old.items ++ kept_of (borrowed_extension extension.entry)) }
{
    if extension.oid == SCT_LIST {
        return Ok(());
    }
    kept.extend_from_slice(extension.whole)
}
