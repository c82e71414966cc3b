//! Records that a bundle and a trusted root both have (the package `sigstore.common.v1` of Sigstore's formats):
//! certificates, chains of them, and ids of logs.
//!
//! ```text
//! {"rawBytes":"MIIB.."}
//! {"certificates":[{"rawBytes":"MIIB.."},{"rawBytes":"MIIC.."}]}
//! {"keyId":"wNI9.."}
//! ```
//!
//! What a reader reads is what the definition of its record says of the value, and it fails if and only if the
//! definition says nothing. A member that is absent is as an empty one.
ghost use Rattle.std.specs.Prelude.{Option};
ghost use Rattle.sig_json.specs.Data.{Data};
ghost use Rattle.sig_json.specs.Tree.{tree};
ghost use Rattle.sig_json.specs.CommonRecord.{certificate_of, chain_of, log_id_of};

use crate::element::{ElementReader, optional_list};
use crate::error::MemberError;
use crate::member::read_bytes;
use crate::view::Json;
use sig_base::{Bytes, Entries};
use std::alloc::Global;

/// Reads certificates (X509Certificate), as their DER: `rawBytes`.
pub enum CertificateReader {}

impl ElementReader for CertificateReader {
    ghost use Rattle.sig_json.specs.CommonRecord.{certificate_of};

    type Item = Bytes;

    ghost meaning = { certificate_of };

    fn read(alloc: Global, json: Json<'_, '_>) -> Result<Bytes, MemberError> {
        read_bytes(alloc, json, "rawBytes")
    }
}

/// Reads chains of certificates (X509CertificateChain), as the DER of each in order: `certificates`.
pub enum ChainReader {}

impl ElementReader for ChainReader {
    ghost use Rattle.sig_json.specs.CommonRecord.{chain_of};

    type Item = Entries;

    ghost meaning = { chain_of };

    fn read(alloc: Global, json: Json<'_, '_>) -> Result<Entries, MemberError> {
        let certificates = optional_list::<CertificateReader>(alloc, json, "certificates")?;
        Ok(Entries::of(alloc, certificates))
    }
}

/// Reads ids of logs (LogId): `keyId`.
pub enum LogIdReader {}

impl ElementReader for LogIdReader {
    ghost use Rattle.sig_json.specs.CommonRecord.{log_id_of};

    type Item = Bytes;

    ghost meaning = { log_id_of };

    fn read(alloc: Global, json: Json<'_, '_>) -> Result<Bytes, MemberError> {
        read_bytes(alloc, json, "keyId")
    }
}
