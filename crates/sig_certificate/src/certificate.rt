//! `Certificate`: RFC 5280 section 4.1, in the profile of Sigstore.

ghost use Rattle.std.specs.Prelude.{◌≡◌, ◌≤◌, ◌+◌, ◌↔◌, ℕ, pos, ◌≤ℤ◌, length, None, Ok, Err, IfOk, option_map};
ghost use Rattle.std.specs.Prelude.{slice_get};
ghost use Rattle.sig_base.specs.Answers.{Answers, ComesWhere};
ghost use Rattle.sig_certificate.specs.Certificate.{Cert, IsCertificate};
ghost use Rattle.sig_certificate.specs.ExtensionsLeft.{extensions_left};
ghost use Rattle.sig_certificate.specs.Lookups.{borrowed_extension, with_oid, are_single, Finds};

use crate::error::X509ReadError;
use crate::extension_walk::Extensions;
use crate::listed::{Listed, read_extension_list};
use crate::lookup::{ExtensionRef, Lookup, lend_at, look_up};
use crate::parts::Places;
use crate::reading::dated_parts;
use crate::span::part;
use sig_der::Reader;
use std::alloc::Global;
use std::marker::Model;

/// A certificate. It owns its DER and the ranges of its parts in it, and its getters borrow the parts. Contracts see
/// the record of *Certificate*.
#[derive(Drop)]
pub struct Certificate {
    der: Vec<u8>,
    places: Places,
    not_before: i64,
    not_after: i64,
    extensions: Listed,
}

impl Model for Certificate {
    ghost use Rattle.sig_certificate.specs.Certificate.{Cert};

    ghost Value = { Cert };

    ghost use Rattle.sig_certificate.specs.Places.{placed_certificate};
    ghost use Rattle.sig_certificate.specs.HeldCertificate.{HoldsCertificate};

    ghost view = { λ c. placed_certificate c.der.items c.places c.not_before c.not_after c.extensions.places.items };

    ghost invariant = { λ c. HoldsCertificate c.der.items c.places c.not_before c.not_after c.extensions };
}

impl Certificate {
    /// Reads the certificate that the bytes are: one SEQUENCE of the TBSCertificate, an algorithm and the bits of the
    /// signature, and nothing after it (RFC 5280 section 4.1). Two extensions may have one object identifier:
    /// `are_single` says.
    ///
    /// Fails with
    /// - `Der` if and only if the bytes are not a certificate;
    /// - `OutOfMemory` if memory ran out for the copy of the bytes or the list of the extensions.
    pub fn try_from_der(alloc: Global, der: &[u8]) -> Result<Certificate, X509ReadError>
        // What is returned is the certificate.
        ensures found { IfOk result (IsCertificate der.now) }
        // A certificate is returned, unless memory ran out.
        ensures only { (c : Cert) → IsCertificate der.now c
            → Answers X509ReadError.OutOfMemory (λ r. r) result (Ok c) }
        // `Der` is returned if the bytes are not a certificate, and only then, unless memory ran out.
        ensures refused { ComesWhere X509ReadError.OutOfMemory result (Err X509ReadError.Der)
            ((c : Cert) → ¬ IsCertificate der.now c) }
    {
        let Some(dated) = dated_parts(der) else {
            return Err(X509ReadError::Der);
        };
        let list = dated.places.list;
        let list = Reader {
            bytes: der,
            at: list.start,
            end: list.end,
        };
        // A `match`, not `?`: the proof needs what the error says of the bytes.
        match read_extension_list(alloc, list) {
            Err(e) => Err(e),
            Ok(extensions) => Ok(Certificate {
                der: Vec::from_slice(alloc, der)?,
                places: dated.places,
                not_before: dated.not_before,
                not_after: dated.not_after,
                extensions,
            }),
        }
    }

    /// Returns the DER of the whole.
    pub fn der(&self) -> &[u8]
        ensures { result.now ≡ self.now.whole }
    {
        self.der.as_slice()
    }

    /// Returns the TBSCertificate, a whole element.
    pub fn tbs(&self) -> &[u8]
        ensures { result.now ≡ self.now.tbs }
    {
        let place = self.places.outer.tbs;
        &self.der[place.start..place.end]
    }

    /// Returns the elements of the TBSCertificate before its extensions. For sig_timestamp, which writes the
    /// TBSCertificate of a precertificate from them.
    pub fn front(&self) -> &[u8]
        ensures { result.now ≡ self.now.front }
    {
        part(&self.der, self.places.front)
    }

    /// Returns the signatureAlgorithm, a whole element.
    pub fn algorithm(&self) -> &[u8]
        ensures { result.now ≡ self.now.algorithm }
    {
        part(&self.der, self.places.outer.algorithm)
    }

    /// Returns the signature field of the TBSCertificate, an AlgorithmIdentifier, a whole element.
    pub fn inner_algorithm(&self) -> &[u8]
        ensures { result.now ≡ self.now.inner_algorithm }
    {
        part(&self.der, self.places.preamble.algorithm)
    }

    /// Returns the issuer's name, a whole element.
    pub fn issuer(&self) -> &[u8]
        ensures { result.now ≡ self.now.issuer }
    {
        part(&self.der, self.places.preamble.issuer)
    }

    /// Returns the subject's name, a whole element.
    pub fn subject(&self) -> &[u8]
        ensures { result.now ≡ self.now.subject }
    {
        part(&self.der, self.places.binding.subject)
    }

    /// Returns the SubjectPublicKeyInfo, a whole element.
    pub fn spki(&self) -> &[u8]
        ensures { result.now ≡ self.now.spki }
    {
        part(&self.der, self.places.binding.spki)
    }

    /// Returns the bits of the signature, without the count of unused bits.
    pub fn signature(&self) -> &[u8]
        ensures { result.now ≡ self.now.signature }
    {
        part(&self.der, self.places.outer.signature)
    }

    /// Returns the version, 1 to 3.
    pub fn version(&self) -> u8
        ensures { result ≡ self.now.version }
    {
        self.places.preamble.version
    }

    /// Returns the first second of the validity, in seconds since 1970.
    pub fn not_before(&self) -> i64
        ensures { result ≡ self.now.not_before }
    {
        self.not_before
    }

    /// Returns the last second of the validity, in seconds since 1970.
    pub fn not_after(&self) -> i64
        ensures { result ≡ self.now.not_after }
    {
        self.not_after
    }

    /// Whether the extensions field is there. For sig_timestamp, as `front`.
    pub fn is_listed(&self) -> bool
        ensures { result ≡ self.now.listed }
    {
        self.places.listed
    }

    /// The value that contracts see is a certificate: a law, for the proofs of the crates above. It does nothing.
    pub fn is_certificate(&self)
        ensures { IsCertificate self.now.whole self.now }
    {
        let _ = &self.places;
    }

    /// Returns the number of extensions.
    pub fn extension_count(&self) -> usize
        ensures { result ≡ length self.now.extensions }
    {
        self.extensions.places.len()
    }

    /// Whether no two extensions have one object identifier (RFC 5280 section 4.2). `try_from_der` reads a certificate
    /// with duplicate extensions; the pools of sig_x509 find no issuer of a certificate that has them, by this call,
    /// and a look-up of a duplicate is `Several`.
    pub fn are_single(&self) -> bool
        ensures { result ≡ are_single self.now.extensions }
    {
        self.extensions.single
    }

    /// Returns the extensions in order, each borrowed from the certificate.
    pub fn extensions(&self) -> Extensions<'_>
        ensures { extensions_left result ≡ self.now.extensions }
    {
        Extensions {
            bytes: &self.der,
            left: &self.extensions.places,
        }
    }

    /// Returns the extension at this index, counted from 0 in the order of the certificate. `None` if and only if the
    /// certificate does not have more than `index`.
    pub fn extension_at(&self, index: usize) -> Option<ExtensionRef<'_>>
        ensures found { option_map borrowed_extension result ≡ slice_get self.now.extensions index }
        ensures none { (result ≡ None) ↔ (length self.now.extensions ≤ index) }
    {
        lend_at(&self.der, &self.extensions.places, index)
    }

    /// Looks up the extensions with this object identifier, which is given by its contents octets and compared byte
    /// for byte.
    pub fn extension(&self, oid: &[u8]) -> Lookup<'_>
        ensures { Finds (with_oid oid.now self.now.extensions) result }
    {
        look_up(&self.der, &self.extensions.places, oid)
    }
}
