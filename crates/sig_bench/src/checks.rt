//! Bundles of one trusted root, read and verified one by one.

use sig_base::TableChecker;
use sig_dsse::ArtifactDigest;
use sig_json::Document;
use sig_request::RowReader;
use sig_verify::HeldRoot;
use sig_x509::{OIDCIssuer, SingleX509ExtPolicy};
use std::alloc::Global;

/// The issuer that the policies require.
const ISSUER: &str = "https://issuer.example";

/// Reads accepted signatures, the object of the first line, and a trusted root, the second, and verifies the bundles of
/// the lines after it at a time in seconds since 1970: each line has the SHA-256 of the artifact in hexadecimal, a
/// space, and the bundle. Returns how many are verified; `None` if one is not, or out of memory.
pub fn verified(alloc: Global, input: &[u8], now: u64) -> Option<u64> {
    let text = std::str::from_utf8(input).ok()?;
    let now = i64::try_from(now).ok()?;
    let (accepted, rest) = text.split_once('\n')?;
    let (root, bundles) = rest.split_once('\n')?;
    let checker = checker_of(alloc, accepted)?;
    let count = verified_under(alloc, root, now, bundles, &checker);
    drop(checker);
    count
}

/// The table of the member `accepted` of an object.
fn checker_of(alloc: Global, text: &str) -> Option<TableChecker> {
    let (_, rows) = Document::read_members_and_list::<RowReader>(
        alloc,
        text.as_bytes(),
        &[],
        "accepted",
    ).ok()?;
    TableChecker::from_rows(alloc, rows).ok()
}

/// The same under this checker.
fn verified_under(
    alloc: Global,
    root: &str,
    now: i64,
    bundles: &str,
    checker: &TableChecker,
) -> Option<u64> {
    let held = HeldRoot::read(alloc, root.as_bytes(), now).ok()?;
    let count = verified_by(alloc, &held, bundles, checker);
    drop(held);
    count
}

/// The same under this trusted root.
fn verified_by(
    alloc: Global,
    held: &HeldRoot,
    bundles: &str,
    checker: &TableChecker,
) -> Option<u64> {
    let mut count: u64 = 0;
    for line in bundles.split('\n') {
        let (digest, bundle) = line.split_once(' ')?;
        is_verified(alloc, held, digest, bundle, checker)?;
        count = count.saturating_add(1);
    }
    Some(count)
}

/// Verifies a bundle of the artifact of this digest.
fn is_verified(
    alloc: Global,
    held: &HeldRoot,
    digest: &str,
    bundle: &str,
    checker: &TableChecker,
) -> Option<()> {
    let mut bytes = [0; 32];
    hex::decode_to_slice(digest, &mut bytes).ok()?;
    let digest = ArtifactDigest::from(bytes);
    let policy = OIDCIssuer::new(alloc, ISSUER).ok()?;
    let outcome = held.verify(alloc, &digest, bundle.as_bytes(), &policy, checker);
    let is_verified = outcome.is_ok();
    drop(outcome);
    is_verified.then_some(())
}
