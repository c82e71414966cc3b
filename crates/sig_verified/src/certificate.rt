//! The certificate of a bundle that was verified.
//!
//! ```text
//! {"issuer":"https://token.actions.githubusercontent.com","names":[{"uri":"https://github.com/..@refs/heads/main"}],
//!  "notAfter":{..},"notBefore":{..},"ref":"refs/heads/main","repository":"example/artifact","serialNumber":"0af3..",
//!  "sha256":"ba78.."}
//! ```
ghost use Rattle.std.specs.Prelude.{◌≡◌, IfOk, codes, option_map};
ghost use Rattle.hex.specs.Hex.{encode_lower};
ghost use Rattle.sig_json.specs.Writing.{members, members_into, put_some};
ghost use Rattle.sig_der.specs.Tag.{VERSION};
ghost use Rattle.sig_der.specs.FrontReaders.{take_tag};
ghost use Rattle.sig_json.specs.Data.{put, string};
ghost use Rattle.sig_json.specs.Tree.{document_tree};
ghost use Rattle.sig_policy.specs.Single.{extension_text};
ghost use Rattle.sig_policy.specs.Texts.{utf8_text};
ghost use Rattle.sig_verified.specs.Certificate.{after_version, certificate_rows, certificate_tree, names_of};
ghost use Rattle.sig_verified.specs.Certificate.{names_tree, said_rows, serial_in};
ghost use Rattle.sig_shown.specs.ShownValues.{some_rows};

use crate::names::names_document;
use sig_base::OutOfMemory;
use sig_certificate::{Certificate, Lookup, alternative_names};
use sig_der::{oid, tag, take_tag};
use sig_evidence::with_validity;
use sig_json::{Document, Object};
use sig_shown::{with_sha256, with_some};
use std::alloc::Global;

/// The object with a certificate as a member. Fails only if out of memory.
pub(crate) fn with_certificate(
    object: Object,
    alloc: Global,
    name: &str,
    certificate: &Certificate,
) -> Result<Object, OutOfMemory>
    ensures { IfOk result (λ made. members made
        ≡ put name.now (certificate_tree certificate.now) (members object)) }
{
    let value = certificate_document(alloc, certificate)?;
    object.with(alloc, name, value)
}

#[tactic(auto, unfolding(crate::specs::Certificate::certificate_tree))]
fn certificate_document(alloc: Global, certificate: &Certificate) -> Result<Document, OutOfMemory>
    ensures { IfOk result (λ document. document_tree document ≡ certificate_tree certificate.now) }
{
    let object = with_names(Object::new(alloc), alloc, certificate)?;
    let object = with_serial(object, alloc, certificate)?;
    let object = with_sha256(object, alloc, "sha256", certificate.der())?;
    let object = with_validity(object, alloc, certificate)?;
    let object = with_said(object, alloc, certificate)?;
    Ok(object.into_document())
}

/// The object with the names that the one subject alternative name gives.
fn with_names(
    object: Object,
    alloc: Global,
    certificate: &Certificate,
) -> Result<Object, OutOfMemory>
    ensures { IfOk result (λ made. members made
        ≡ put (codes "names") (names_tree (names_of certificate.now)) (members object)) }
{
    let found = match certificate.extension(oid::SUBJECT_ALTERNATIVE_NAME) {
        Lookup::One(extension) => alternative_names(extension.value),
        _ => None,
    };
    let names = match found {
        Some(names) => names_document(alloc, names)?,
        None => Document::list(alloc),
    };
    object.with(alloc, "names", names)
}

/// The object with the serial number.
fn with_serial(
    object: Object,
    alloc: Global,
    certificate: &Certificate,
) -> Result<Object, OutOfMemory>
    ensures { IfOk result (λ made. members made ≡ put_some (codes "serialNumber")
        (option_map (λ serial. string (encode_lower serial)) (serial_in certificate.now.front)) (members object)) }
{
    match serial_in(certificate.front()) {
        Some(serial) => object.with_hex(alloc, "serialNumber", serial),
        None => Ok(object),
    }
}

/// The content of the serial number, of the elements of a TBSCertificate before its extensions.
#[tactic(auto, unfolding(crate::specs::Certificate::serial_in))]
fn serial_in(front: &[u8]) -> Option<&[u8]>
    ensures { option_map (λ s. s.now) result ≡ serial_in front.now }
{
    let (serial, _) = take_tag(after_version(front), tag::INTEGER)?;
    Some(serial.content)
}

/// What follows the version of a TBSCertificate, if there is one, of its elements before the extensions.
fn after_version(front: &[u8]) -> &[u8]
    ensures { result.now ≡ after_version front.now (take_tag VERSION front.now) }
{
    match take_tag(front, tag::VERSION) {
        Some((_, rest)) => rest,
        None => front,
    }
}

/// The object with what Fulcio's extensions say.
fn with_said(
    object: Object,
    alloc: Global,
    certificate: &Certificate,
) -> Result<Object, OutOfMemory>
    ensures { IfOk result (λ made. members made ≡ members_into (members object) (said_rows certificate.now)) }
{
    let c = certificate;
    let object = with_extension(
        object,
        alloc,
        "issuer",
        "issuerLength",
        c,
        oid::FULCIO_ISSUER,
    )?;
    let object = with_extension(
        object,
        alloc,
        "trigger",
        "triggerLength",
        c,
        oid::FULCIO_TRIGGER,
    )?;
    let object = with_extension(object, alloc, "sha", "shaLength", c, oid::FULCIO_SHA)?;
    let object = with_extension(object, alloc, "name", "nameLength", c, oid::FULCIO_NAME)?;
    let repository = oid::FULCIO_REPOSITORY;
    let object = with_extension(
        object,
        alloc,
        "repository",
        "repositoryLength",
        c,
        repository,
    )?;
    with_extension(object, alloc, "ref", "refLength", c, oid::FULCIO_REF)
}

/// The object with the text of an extension, if there is one.
fn with_extension(
    object: Object,
    alloc: Global,
    name: &str,
    length_name: &str,
    certificate: &Certificate,
    oid: &[u8],
) -> Result<Object, OutOfMemory>
    ensures { IfOk result (λ made. members made ≡ members_into (members object)
        (some_rows name.now length_name.now (extension_text oid.now certificate.now))) }
{
    with_some(
        object,
        alloc,
        name,
        length_name,
        extension_text(certificate, oid),
    )
}

/// The text of the only extension of this object identifier. `None` if there is none, if there are several, and if its
/// value is not UTF-8.
fn extension_text<'a>(certificate: &'a Certificate, oid: &[u8]) -> Option<&'a str>
    ensures { option_map (λ t. t.now) result ≡ extension_text oid.now certificate.now }
{
    match certificate.extension(oid) {
        Lookup::One(extension) => utf8_text(extension.value),
        _ => None,
    }
}

/// The text that the bytes are. `None` if they are not UTF-8.
#[tactic(auto, using(sig_policy::proofs::Utf8Laws::utf8_some, sig_policy::proofs::Utf8Laws::utf8_none))]
pub(crate) fn utf8_text(bytes: &[u8]) -> Option<&str>
    ensures { option_map (λ t. t.now) result ≡ utf8_text bytes.now }
{
    match std::str::from_utf8(bytes) {
        Ok(text) => Some(text),
        Err(_) => None,
    }
}
