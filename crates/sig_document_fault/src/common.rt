//! The tables of certificates, of chains of them, and of ids of logs.
ghost use Rattle.sig_document_fault.specs.CommonTable.{certificate_table, chain_table, log_id_table};

use sig_json::Json;
use sig_table::{BytesTable, ListOf, MemberTable, TableError, object, optional};
use std::alloc::Global;

pub(crate) enum CertificateTable {}

impl MemberTable for CertificateTable {
    ghost table = { certificate_table };

    #[tactic(auto, unfolding(crate::specs::CommonTable::certificate_table))]
    fn check(alloc: Global, json: Json<'_, '_>) -> Result<(), TableError> {
        object(alloc, json)?;
        optional::<BytesTable>(alloc, json, "rawBytes")
    }
}

/// The table of chains of certificates.
pub(crate) enum ChainTable {}

impl MemberTable for ChainTable {
    ghost table = { chain_table };

    #[tactic(auto, unfolding(crate::specs::CommonTable::chain_table))]
    fn check(alloc: Global, json: Json<'_, '_>) -> Result<(), TableError> {
        object(alloc, json)?;
        optional::<ListOf<CertificateTable>>(alloc, json, "certificates")
    }
}

/// The table of ids of logs.
pub(crate) enum LogIdTable {}

impl MemberTable for LogIdTable {
    ghost table = { log_id_table };

    #[tactic(auto, unfolding(crate::specs::CommonTable::log_id_table))]
    fn check(alloc: Global, json: Json<'_, '_>) -> Result<(), TableError> {
        object(alloc, json)?;
        optional::<BytesTable>(alloc, json, "keyId")
    }
}
