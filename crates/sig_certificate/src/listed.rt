//! The list of a certificate's extensions, and whether two of them have one object identifier: RFC 5280 section 4.2.

ghost use Rattle.std.specs.Prelude.{◌≡◌, map, IfOk};
ghost use Rattle.std.specs.List.{All};
ghost use Rattle.std.specs.Ordering.{nat_cmp};
ghost use Rattle.std.specs.Cmp.Lexicographic.{slice_cmp};
ghost use Rattle.sig_der.specs.Readers.{left};
ghost use Rattle.sig_der.specs.FrontReaders.{many_at};
ghost use Rattle.sig_base.specs.Answers.{Answers};
ghost use Rattle.sig_certificate.specs.Answers.{or_der};
ghost use Rattle.sig_certificate.specs.Cutting.{extension_at};
ghost use Rattle.sig_certificate.specs.HeldCertificate.{IsRecorded};
ghost use Rattle.sig_certificate.specs.Lookups.{are_single};
ghost use Rattle.sig_certificate.specs.Places.{part, extension_of, AreSpans, Ascend};

use crate::error::X509ReadError;
use crate::extensions::ExtensionPlaces;
use crate::reading::read_extensions;
use crate::span::clipped;
use sig_der::Reader;
use std::alloc::Global;
use std::cmp::Ordering;

/// Where the extensions of a certificate are. Whether there are duplicate extensions is found once, since the test of
/// a leaf takes no memory.
#[derive(Drop)]
pub(crate) struct Listed {
    pub(crate) places: Vec<ExtensionPlaces>,
    pub(crate) single: bool,
}

/// Reads the extensions that are all that is left. Fails with `Der` if anything else is left, and with `OutOfMemory`.
pub(crate) fn read_extension_list(
    alloc: Global,
    reader: Reader<'_>,
) -> Result<Listed, X509ReadError>
    ensures exact { Answers X509ReadError.OutOfMemory (λ l. map (extension_of reader.entry.bytes.now) l.places.items)
        result (or_der (many_at extension_at (left reader.entry))) }
    ensures within { IfOk result (λ l. All (AreSpans reader.entry.end) l.places.items) }
    ensures recorded { IfOk result (IsRecorded reader.entry.bytes.now) }
{
    let mut places = read_extensions(alloc, reader)?;
    let single = are_single(reader.bytes, places.as_mut_slice());
    Ok(Listed { places, single })
}

/// Whether no two extensions have one object identifier. The list is sorted by them, so that equal ones are neighbours,
/// and then back into the order of the DER, both in place: this takes no memory, and the time of a sort, since whoever
/// makes a certificate chooses how many extensions it has.
fn are_single(bytes: &[u8], extensions: &mut [ExtensionPlaces]) -> bool
    requires { Ascend extensions.old }
    ensures single { result ≡ are_single (map (extension_of bytes.now) extensions.old) }
    ensures same { extensions.new ≡ extensions.old }
{
    extensions.sort_unstable_by(|a, b| compared(bytes, a, b));
    let single = extensions.is_sorted_by(|a, b| compared(bytes, a, b).is_lt());
    extensions.sort_unstable_by_key(|places| places.whole.start);
    single
}

/// How the object identifiers of two extensions compare, byte for byte.
fn compared(bytes: &[u8], first: &ExtensionPlaces, second: &ExtensionPlaces) -> Ordering
    ensures { result ≡ slice_cmp nat_cmp (part bytes.now first.now.oid) (part bytes.now second.now.oid) }
{
    clipped(bytes, first.oid).cmp(clipped(bytes, second.oid))
}
