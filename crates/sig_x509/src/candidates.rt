//! The candidates: the intermediates that may have signed a certificate of a path.

ghost use Rattle.std.specs.Prelude.{◌≡◌, ◌++◌, map, Some, OnOk};
ghost use Rattle.sig_x509.specs.Candidates.{all_seen, if_may_issue, seen};

use crate::issuance::may_issue;
use sig_base::OutOfMemory;
use sig_certificate::Certificate;

/// Adds the intermediates of a pool that may issue at the time, and marks each other one as absent. Fails only if out
/// of memory.
#[tactic(auto, using(crate::proofs::SeenCandidates::pushed_laws))]
pub(crate) fn push_intermediates<'a>(
    listed: &mut Vec<Option<&'a Certificate>>,
    intermediates: &'a [Option<Certificate>],
    time: i64,
) -> Result<(), OutOfMemory>
    ensures { OnOk result (all_seen listed.new.items
        ≡ all_seen listed.old.items ++ map (if_may_issue time) intermediates.now) }
{
    'intermediates: for intermediate in intermediates {
        listed.push(usable(intermediate, time))?;
    }
    Ok(())
}

/// The intermediate, if it is a certificate and may issue others at the time.
fn usable<'a>(intermediate: &'a Option<Certificate>, time: i64) -> Option<&'a Certificate>
    ensures { seen result ≡ if_may_issue time intermediate.now }
{
    match intermediate {
        Some(certificate) => if_may_issue(certificate, time),
        None => None,
    }
}

/// The certificate, if it may issue others at the time.
fn if_may_issue<'a>(certificate: &'a Certificate, time: i64) -> Option<&'a Certificate>
    ensures { seen result ≡ if_may_issue time (Some certificate.now) }
{
    if may_issue(certificate, time) {
        Some(certificate)
    } else {
        None
    }
}

/// Adds the intermediates that come with a leaf, as `push_intermediates` adds those of a pool.
#[tactic(auto, using(crate::proofs::SeenCandidates::pushed_laws))]
pub(crate) fn push_further<'a>(
    listed: &mut Vec<Option<&'a Certificate>>,
    further: &'a [Certificate],
    time: i64,
) -> Result<(), OutOfMemory>
    ensures { OnOk result (all_seen listed.new.items
        ≡ all_seen listed.old.items ++ map (λ c. if_may_issue time (Some c)) further.now) }
{
    'further: for intermediate in further {
        listed.push(if_may_issue(intermediate, time))?;
    }
    Ok(())
}
