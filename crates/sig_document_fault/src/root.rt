//! What is wrong with a trusted root.
ghost use Rattle.std.specs.Prelude.{◌≡◌, IfOk};
ghost use Rattle.sig_document_fault.specs.RootTable.{authority_table, instance_table, public_key_table, range_table};
ghost use Rattle.sig_document_fault.specs.RootTable.{root_table, time_table};
ghost use Rattle.sig_json.specs.Document.{document_of};
ghost use Rattle.sig_root.specs.RootRecord.{trusted_root_in};
ghost use Rattle.sig_table.specs.DocumentFault.{IsFaultIn, error_alone, error_of, fault_in};

use crate::common::{ChainTable, LogIdTable};
use sig_base::OutOfMemory;
use sig_der::rfc3339_second;
use sig_json::Json;
use sig_table::{
    BytesTable, Cause, DocumentFault, ListOf, MemberTable, TableError, document_fault, fault_here,
    object, optional,
};
use std::alloc::Global;

/// The table of time texts.
enum TimeTable {}

impl MemberTable for TimeTable {
    ghost table = { time_table };

    #[tactic(auto, unfolding(crate::specs::RootTable::time_table, sig_root::specs::RootRecord::time_of, sig_json::specs::Kinds::text_of))]
    fn check(alloc: Global, json: Json<'_, '_>) -> Result<(), TableError> {
        match json.text() {
            Some(text) if rfc3339_second(text).is_some() => Ok(()),
            _ => Err(fault_here(alloc, Cause::OtherKind)),
        }
    }
}

/// The table of ranges of time.
enum RangeTable {}

impl MemberTable for RangeTable {
    ghost table = { range_table };

    #[tactic(auto, unfolding(crate::specs::RootTable::range_table))]
    fn check(alloc: Global, json: Json<'_, '_>) -> Result<(), TableError> {
        object(alloc, json)?;
        optional::<TimeTable>(alloc, json, "start")?;
        optional::<TimeTable>(alloc, json, "end")
    }
}

/// The table of a certificate authority: its chain of certificates, and when it issues.
enum AuthorityTable {}

impl MemberTable for AuthorityTable {
    ghost table = { authority_table };

    #[tactic(auto, unfolding(crate::specs::RootTable::authority_table))]
    fn check(alloc: Global, json: Json<'_, '_>) -> Result<(), TableError> {
        object(alloc, json)?;
        optional::<ChainTable>(alloc, json, "certChain")?;
        optional::<RangeTable>(alloc, json, "validFor")
    }
}

/// The table of keys of logs.
enum PublicKeyTable {}

impl MemberTable for PublicKeyTable {
    ghost table = { public_key_table };

    #[tactic(auto, unfolding(crate::specs::RootTable::public_key_table))]
    fn check(alloc: Global, json: Json<'_, '_>) -> Result<(), TableError> {
        object(alloc, json)?;
        optional::<BytesTable>(alloc, json, "rawBytes")?;
        optional::<RangeTable>(alloc, json, "validFor")
    }
}

/// The table of instances of logs.
enum InstanceTable {}

impl MemberTable for InstanceTable {
    ghost table = { instance_table };

    #[tactic(auto, unfolding(crate::specs::RootTable::instance_table))]
    fn check(alloc: Global, json: Json<'_, '_>) -> Result<(), TableError> {
        object(alloc, json)?;
        optional::<PublicKeyTable>(alloc, json, "publicKey")?;
        optional::<LogIdTable>(alloc, json, "logId")
    }
}

/// The table of trusted roots.
enum RootTable {}

impl MemberTable for RootTable {
    ghost table = { root_table };

    #[tactic(auto, unfolding(crate::specs::RootTable::root_table))]
    fn check(alloc: Global, json: Json<'_, '_>) -> Result<(), TableError> {
        object(alloc, json)?;
        optional::<ListOf<AuthorityTable>>(alloc, json, "certificateAuthorities")?;
        optional::<ListOf<InstanceTable>>(alloc, json, "tlogs")?;
        optional::<ListOf<InstanceTable>>(alloc, json, "ctlogs")
    }
}

/// Returns what is wrong with a text that has to be a trusted root (Sigstore trusted root format), or `None` if it is
/// one: that it is not JSON, or has a float, and then the first member that breaks the table, in its order. Nothing is
/// wrong if and only if `read_trusted_root` reads the text. Fails only if out of memory.
pub fn root_fault(alloc: Global, text: &[u8]) -> Result<Option<DocumentFault>, OutOfMemory>
    ensures value { IfOk result (λ found. found ≡ fault_in root_table text.now) }
    ensures first { IfOk result (IsFaultIn root_table (document_of text.now)) }
    ensures reader { IfOk result (λ found. error_of found ≡ error_alone (trusted_root_in text.now)) }
{
    document_fault::<RootTable>(alloc, text)
}
