//! Reading a certificate into ranges of its DER.

ghost use Rattle.std.specs.Prelude.{◌≡◌, ℤ, length, map, IfOk, IfSome};
ghost use Rattle.std.specs.List.{All};
ghost use Rattle.sig_der.specs.Readers.{left};
ghost use Rattle.sig_der.specs.FrontReaders.{many_at};
ghost use Rattle.sig_base.specs.Answers.{Answers};
ghost use Rattle.sig_certificate.specs.Answers.{or_der};
ghost use Rattle.sig_certificate.specs.Cutting.{Parts, extension_at, HasCertificateParts};
ghost use Rattle.sig_certificate.specs.Places.{extension_of, parts_of, AreSpans, ArePlaces, Ascend};
ghost use Rattle.sig_certificate.specs.HeldCertificate.{IsDatedAs};

use crate::error::X509ReadError;
use crate::extensions::{ExtensionPlaces, read_extension};
use crate::parts::{Places, parts_of};
use crate::seconds::second_at;
use sig_der::Reader;
use std::alloc::Global;

/// A certificate whose extensions are not read yet: the ranges of its parts, and the times of its validity in seconds
/// since 1970.
#[derive(Clone, Copy, Debug)]
pub(crate) struct Dated {
    pub(crate) places: Places,
    pub(crate) not_before: i64,
    pub(crate) not_after: i64,
}

/// Reads the parts and the validity of the certificate that the bytes are. `None` if they are not one.
pub(crate) fn dated_parts(der: &[u8]) -> Option<Dated>
    ensures found { IfSome result (λ d. HasCertificateParts der.now
        (parts_of der.now d.places) d.not_before d.not_after) }
    ensures only { (p : Parts) (not_before not_after : ℤ) → HasCertificateParts der.now p not_before not_after
        → IsDatedAs der.now p not_before not_after result }
    ensures within { IfSome result (λ d. ArePlaces (length der.now) d.places) }
{
    let places = parts_of(der)?;
    let not_before = second_at(der, places.binding.not_before)?;
    let not_after = second_at(der, places.binding.not_after)?;
    Some(Dated {
        places,
        not_before,
        not_after,
    })
}

/// Reads the extensions that are all that is left. Fails with `Der` if anything else is left, and with `OutOfMemory`.
pub(crate) fn read_extensions(
    alloc: Global,
    reader: Reader<'_>,
) -> Result<Vec<ExtensionPlaces>, X509ReadError>
    ensures exact { Answers X509ReadError.OutOfMemory (λ v. map (extension_of reader.entry.bytes.now) v.items)
        result (or_der (many_at extension_at (left reader.entry))) }
    ensures within { IfOk result (λ v. All (AreSpans reader.entry.end) v.items) }
    ensures ascend { IfOk result (λ v. Ascend v.items) }
{
    let mut found = Vec::new(alloc);
    let mut rest = reader;
    while !rest.is_done() {
        match read_extension(rest) {
            None => return Err(X509ReadError::Der),
            Some((extension, after)) => {
                rest = after;
                found.push(extension)?;
            }
        }
    }
    Ok(found)
}
