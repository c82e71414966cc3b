//! The log and the time that a certificate's SCT names.
ghost use Rattle.std.specs.Prelude.{◌≡◌, IfOk, option_map};
ghost use Rattle.sig_json.specs.Writing.{members, members_into};
ghost use Rattle.sig_evidence.specs.Logs.{named_sct, sct_parts, sct_rows};
ghost use Rattle.sig_timestamp.specs.Timestamps.{sct_of};

use sig_base::OutOfMemory;
use sig_certificate::Certificate;
use sig_json::Object;
use sig_shown::{with_count, with_time};
use sig_timestamp::{CertificateEmbeddedSCT, DigitallySigned, SCTError};
use std::alloc::Global;

/// The object with what the one SCT of a certificate names: `logId`, the id of the log in hexadecimal; `timestamp`, in
/// milliseconds since 1970; and `time`, the second of it in both forms. No member is added if the certificate does not
/// have exactly one SCT. Fails only if out of memory.
pub fn with_sct(
    object: Object,
    alloc: Global,
    certificate: &Certificate,
) -> Result<Object, OutOfMemory>
    ensures { IfOk result (λ made. members made
        ≡ members_into (members object) (sct_rows (named_sct (sct_of certificate.now)))) }
{
    let Some(sct) = sct_of(alloc, certificate)? else {
        return Ok(object);
    };
    let log_id = sct.log_id;
    let timestamp = sct.timestamp;
    drop(sct);
    let object = object.with_hex(alloc, "logId", &log_id)?;
    let object = with_count(object, alloc, "timestamp", timestamp)?;
    let second = (timestamp / 1000) as i64;
    with_time(object, alloc, "time", &second)
}

/// Returns the one SCT of a certificate; `None` if it does not have exactly one.
fn sct_of(alloc: Global, certificate: &Certificate) -> Result<Option<DigitallySigned>, OutOfMemory>
    ensures { IfOk result (λ found. option_map sct_parts found ≡ named_sct (sct_of certificate.now)) }
{
    // Log and time do not depend on the issuer's key.
    match CertificateEmbeddedSCT::new_with_verified_path(alloc, certificate, &[]) {
        Ok(embedded) => {
            let signed = DigitallySigned::from_embedded(alloc, &embedded);
            drop(embedded);
            Ok(Some(signed?))
        }
        Err(SCTError::OutOfMemory) => Err(OutOfMemory),
        Err(_) => Ok(None),
    }
}
