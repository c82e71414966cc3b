//! What is wrong with a request of `verify`.
ghost use Rattle.std.specs.Prelude.{◌≡◌, ◌↔◌, IfOk, None};
ghost use Rattle.sig_request.specs.VerifyRequest.{verify_request};
ghost use Rattle.sig_request_fault.specs.RequestFault.{IsRequest, IsRequestFault, request_fault_in};
ghost use Rattle.sig_request_fault.specs.RequestTable.{digest_table, verify_table};

use crate::fault::{RequestFault, request_fault};
use crate::policy::PolicyTable;
use crate::row::{AcceptedTable, EntriesTable};
use sig_base::OutOfMemory;
use sig_json::Json;
use sig_request::ArtifactDigestReader;
use sig_table::{
    MemberTable, ReadBy, TableError, TextTable, object, optional, required, required_i64,
};
use std::alloc::Global;

/// The table of the texts of digests.
pub enum DigestTable {}

impl MemberTable for DigestTable {
    ghost table = { digest_table };

    #[tactic(auto, unfolding(crate::specs::RequestTable::digest_table))]
    fn check(alloc: Global, json: Json<'_, '_>) -> Result<(), TableError> {
        ReadBy::<ArtifactDigestReader>::check(alloc, json)
    }
}

/// The table of requests of `verify`.
enum VerifyTable {}

impl MemberTable for VerifyTable {
    ghost table = { verify_table };

    #[tactic(auto, using(sig_table::proofs::Steps::steps), unfolding(crate::specs::RequestTable::verify_table))]
    fn check(alloc: Global, json: Json<'_, '_>) -> Result<(), TableError> {
        object(alloc, json)?;
        required::<TextTable>(alloc, json, "trustedRoot")?;
        required::<TextTable>(alloc, json, "bundle")?;
        required_i64(alloc, json, "now")?;
        required::<DigestTable>(alloc, json, "digest")?;
        required::<PolicyTable>(alloc, json, "policy")?;
        optional::<AcceptedTable>(alloc, json, "accepted")?;
        optional::<EntriesTable>(alloc, json, "entries")
    }
}

/// Returns what is wrong with a text that has to be a request of `verify`, or `None` if and only if it is one: that it
/// has more than 2^24 bytes; else that it is not JSON, or has a float; else the first member that breaks the table, in
/// its order. The texts of trusted root and bundle are texts; whether they can be read is not checked. Fails only if
/// out of memory.
pub fn verify_request_fault(alloc: Global, text: &[u8]) -> Result<Option<RequestFault>, OutOfMemory>
    ensures value { IfOk result (λ found. found ≡ request_fault_in verify_table text.now) }
    ensures first { IfOk result (IsRequestFault verify_table text.now) }
    ensures request { IfOk result (λ found. (found ≡ None) ↔ IsRequest verify_request text.now) }
{
    request_fault::<VerifyTable>(alloc, text)
}
