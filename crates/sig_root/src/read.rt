//! Readers of trusted roots.
ghost use Rattle.std.specs.Prelude.{Option};
ghost use Rattle.sig_base.specs.Answers.{Answers};
ghost use Rattle.sig_json.specs.Data.{Data};
ghost use Rattle.sig_json.specs.Tree.{tree};
ghost use Rattle.sig_root.specs.RootRecord.{authority_of, instance_of};
ghost use Rattle.sig_root.specs.RootRecord.{public_key_of};
ghost use Rattle.sig_root.specs.RootRecord.{range_of, time_of, trusted_root_in, trusted_root_of};

use crate::record::{PublicKey, TimeRange, TrustedRoot};
use crate::sparse::{SparseAuthority, SparseInstance};
use sig_der::rfc3339_second;
use sig_json::{
    BytesReader, ChainReader, ElementReader, Json, JsonError, LogIdReader, MemberError, optional,
    optional_list, read_record,
};
use std::alloc::Global;

/// Reads time texts, as the seconds since 1970 in which their instants lie.
enum TimeReader {}

impl ElementReader for TimeReader {
    type Item = i64;

    ghost meaning = { time_of };

    #[tactic(auto, unfolding(crate::specs::RootRecord::time_of, sig_json::specs::Kinds::text_of))]
    fn read(_alloc: Global, json: Json<'_, '_>) -> Result<i64, MemberError> {
        let Some(text) = json.text() else {
            return Err(MemberError::Member);
        };
        match rfc3339_second(text) {
            Some(second) => Ok(second),
            None => Err(MemberError::Member),
        }
    }
}

/// Reads ranges of time.
enum RangeReader {}

impl ElementReader for RangeReader {
    type Item = TimeRange;

    ghost meaning = { range_of };

    #[tactic(auto, unfolding(crate::specs::RootRecord::range_of))]
    fn read(alloc: Global, json: Json<'_, '_>) -> Result<TimeRange, MemberError> {
        Ok(TimeRange {
            start: optional::<TimeReader>(alloc, json, "start")?,
            end: optional::<TimeReader>(alloc, json, "end")?,
        })
    }
}

enum AuthorityReader {}

impl ElementReader for AuthorityReader {
    type Item = SparseAuthority;

    ghost meaning = { authority_of };

    #[tactic(auto, unfolding(crate::specs::RootRecord::authority_of))]
    fn read(alloc: Global, json: Json<'_, '_>) -> Result<SparseAuthority, MemberError> {
        let cert_chain = optional::<ChainReader>(alloc, json, "certChain")?;
        let valid_for = optional::<RangeReader>(alloc, json, "validFor")?;
        Ok(SparseAuthority::of(alloc, cert_chain, valid_for)?)
    }
}

/// Reads keys of logs.
enum PublicKeyReader {}

impl ElementReader for PublicKeyReader {
    type Item = PublicKey;

    ghost meaning = { public_key_of };

    #[tactic(auto, unfolding(crate::specs::RootRecord::public_key_of))]
    fn read(alloc: Global, json: Json<'_, '_>) -> Result<PublicKey, MemberError> {
        Ok(PublicKey {
            raw_bytes: optional::<BytesReader>(alloc, json, "rawBytes")?,
            valid_for: optional::<RangeReader>(alloc, json, "validFor")?,
        })
    }
}

/// Reads instances of logs.
enum InstanceReader {}

impl ElementReader for InstanceReader {
    type Item = SparseInstance;

    ghost meaning = { instance_of };

    #[tactic(auto, unfolding(crate::specs::RootRecord::instance_of))]
    fn read(alloc: Global, json: Json<'_, '_>) -> Result<SparseInstance, MemberError> {
        let public_key = optional::<PublicKeyReader>(alloc, json, "publicKey")?;
        let log_id = optional::<LogIdReader>(alloc, json, "logId")?;
        Ok(SparseInstance::of(alloc, public_key, log_id)?)
    }
}

/// Reads trusted roots.
pub(crate) enum RootReader {}

impl ElementReader for RootReader {
    type Item = TrustedRoot;

    ghost meaning = { trusted_root_of };

    #[tactic(auto, unfolding(crate::specs::RootRecord::trusted_root_of))]
    fn read(alloc: Global, json: Json<'_, '_>) -> Result<TrustedRoot, MemberError> {
        Ok(TrustedRoot {
            certificate_authorities: optional_list::<AuthorityReader>(
                alloc,
                json,
                "certificateAuthorities",
            )?,
            tlogs: optional_list::<InstanceReader>(alloc, json, "tlogs")?,
            ctlogs: optional_list::<InstanceReader>(alloc, json, "ctlogs")?,
        })
    }
}

/// Returns the trusted root that a text is (Sigstore trusted root format, in the JSON form of its protocol buffers).
/// Absent and null members mean empty or absent. Members that are not read here, of whatever kind, are ignored. It does
/// not check who made the text. Errors:
///
/// - `NotJson` if the text has no reading;
/// - then `Float` if its tree holds a number with a point or an exponent, `-0`, or an integer outside -2^63 to
///   2^64 - 1;
/// - then `Member` if the text is not an object, or a member is not of its kind;
/// - `OutOfMemory`.
pub fn read_trusted_root(alloc: Global, text: &[u8]) -> Result<TrustedRoot, JsonError>
    ensures { Answers JsonError.OutOfMemory (λ root. root) result (trusted_root_in text.now) }
{
    read_record::<RootReader>(alloc, text)
}
