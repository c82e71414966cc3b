//! The issuer that a chain begins with: RFC 6962 section 3.1.

ghost use Rattle.std.specs.Prelude.{◌≡◌, option_map};
ghost use Rattle.sig_timestamp.specs.Embedded.{signs_precertificates, candidate_of, issuer_in_chain};

use sig_certificate::{Certificate, Lookup, is_ca, read_purpose};
use sig_der::oid::{EXTENDED_KEY_USAGE, PRECERTIFICATE_SIGNING};

/// Returns the issuer that the chain begins with. `None` if it is not there, or `is_ca` rejects it.
pub(crate) fn find_issuer(chain: &[Certificate]) -> Option<&Certificate>
    ensures { option_map (λ c. c.now) result ≡ issuer_in_chain chain.now }
{
    let issuer = candidate(chain)?;
    match is_ca(issuer) {
        Ok(()) => Some(issuer),
        Err(_) => None,
    }
}

/// Returns the first of the chain, or the second if the first only signs precertificates.
fn candidate(chain: &[Certificate]) -> Option<&Certificate>
    ensures { option_map (λ c. c.now) result ≡ candidate_of chain.now }
{
    match chain {
        [] => None,
        [first, rest @ ..] => {
            if signs_precertificates(first) {
                rest.first()
            } else {
                Some(first)
            }
        }
    }
}

/// Whether precertificate signing is among the purposes of the certificate's one extended key usage.
#[tactic(auto, using(crate::proofs::EmbeddedLaws::signs_several))]
fn signs_precertificates(certificate: &Certificate) -> bool
    ensures { result ≡ signs_precertificates certificate.now }
{
    match certificate.extension(EXTENDED_KEY_USAGE) {
        Lookup::Absent => false,
        Lookup::Several => false,
        Lookup::One(extension) => {
            read_purpose(extension.value, PRECERTIFICATE_SIGNING).unwrap_or(false)
        }
    }
}
