//! Logs of a trusted root.
ghost use Rattle.std.specs.Prelude.{◌≡◌, IfOk, codes, option_map};
ghost use Rattle.sig_json.specs.Writing.{list_tree, members, members_into, put_some};
ghost use Rattle.sig_evidence.specs.Logs.{log_id_rows, log_key_rows, log_tree, logs_tree, range_rows, state_name};
ghost use Rattle.sig_json.specs.Tree.{document_tree};
ghost use Rattle.sig_root.specs.Picked.{has_begun, holds};
ghost use Rattle.sig_shown.specs.ShownValues.{sha256_tree, time_tree};

use sig_base::{Bytes, OutOfMemory};
use sig_json::{Document, Object};
use sig_root::{PublicKey, SparseInstance, TimeRange};
use sig_shown::{first, with_sha256, with_shown, with_time};
use std::alloc::Global;

/// The greatest number of logs of a trusted root that are shown.
pub const MOST_LOGS: usize = 256;

/// The object with the id of a log as a member, `logId`, in hexadecimal, if there is one. Fails only if out of memory.
#[tactic(auto, unfolding(hex::specs::Hex::encode_with))]
pub fn with_log_id(object: Object, alloc: Global, id: &Option<Bytes>) -> Result<Object, OutOfMemory>
    ensures { IfOk result (λ made. members made ≡ members_into (members object) (log_id_rows id.now)) }
{
    let Some(id) = id else {
        return Ok(object);
    };
    let digits = hex::encode(alloc, id.as_slice())?;
    with_shown(object, alloc, "logId", "logIdLength", digits.as_str())
}

/// Logs of a trusted root: for the first [`MOST_LOGS`] in order `logId` in hexadecimal, `keySha256`, the SHA-256 of the
/// key, and of the key's range `state`, which is `holds`, `ended` or `not begun` at this second since 1970, `start` and
/// `end`; what a log does not have is left out. Fails only if out of memory.
#[tactic(auto, unfolding(crate::specs::Logs::logs_tree))]
pub fn logs_document(
    alloc: Global,
    logs: &[SparseInstance],
    now: &i64,
) -> Result<Document, OutOfMemory>
    ensures { IfOk result (λ document. document_tree document ≡ logs_tree now.now logs.now) }
{
    list_of(alloc, first(logs, MOST_LOGS), now)
}

/// These logs.
fn list_of(alloc: Global, logs: &[SparseInstance], now: &i64) -> Result<Document, OutOfMemory>
    ensures { IfOk result (λ document. document_tree document ≡ list_tree (log_tree now.now) logs.now) }
{
    let mut list = Document::list(alloc);
    'logs: for log in logs {
        list.push(log_document(alloc, log, now)?)?;
    }
    Ok(list)
}

/// A log of a trusted root at a time.
#[tactic(auto, unfolding(crate::specs::Logs::log_tree))]
fn log_document(alloc: Global, log: &SparseInstance, now: &i64) -> Result<Document, OutOfMemory>
    ensures { IfOk result (λ document. document_tree document ≡ log_tree now.now log.now) }
{
    let object = Object::new(alloc);
    let Some(log) = log.get() else {
        return Ok(object.into_document());
    };
    let object = with_log_id(object, alloc, &log.log_id)?;
    let object = with_log_key(object, alloc, &log.public_key, now)?;
    Ok(object.into_document())
}

/// The object with the key of a log, and its range.
fn with_log_key(
    object: Object,
    alloc: Global,
    key: &Option<PublicKey>,
    now: &i64,
) -> Result<Object, OutOfMemory>
    ensures { IfOk result (λ made. members made ≡ members_into (members object) (log_key_rows now.now key.now)) }
{
    let Some(key) = key else {
        return Ok(object);
    };
    let object = with_key_hash(object, alloc, &key.raw_bytes)?;
    let object = object.with_text(alloc, "state", state_name(&key.valid_for, now))?;
    with_range(object, alloc, &key.valid_for)
}

/// The object with the SHA-256 of a key, if it has bytes.
fn with_key_hash(
    object: Object,
    alloc: Global,
    bytes: &Option<Bytes>,
) -> Result<Object, OutOfMemory>
    ensures { IfOk result (λ made. members made
        ≡ put_some (codes "keySha256") (option_map sha256_tree bytes.now) (members object)) }
{
    match bytes {
        Some(bytes) => with_sha256(object, alloc, "keySha256", bytes.as_slice()),
        None => Ok(object),
    }
}

/// Whether a range holds at this second, has ended, or has not begun.
pub(crate) fn state_name(range: &Option<TimeRange>, now: &i64) -> &'static str
    ensures { result.now ≡ state_name now.now range.now }
{
    if holds(range, now) {
        "holds"
    } else if has_begun(range, now) {
        "ended"
    } else {
        "not begun"
    }
}

/// Whether a range holds at this second.
fn holds(range: &Option<TimeRange>, now: &i64) -> bool
    ensures { result ≡ holds now.now range.now }
{
    match range {
        Some(range) => match (range.start, range.end) {
            (Some(start), Some(end)) => start <= *now && *now <= end,
            (Some(start), None) => start <= *now,
            (None, _) => true,
        },
        None => true,
    }
}

/// Whether a range has begun by this second.
fn has_begun(range: &Option<TimeRange>, now: &i64) -> bool
    ensures { result ≡ has_begun now.now range.now }
{
    match range {
        Some(range) => match range.start {
            Some(start) => start <= *now,
            None => true,
        },
        None => true,
    }
}

/// The object with the ends of a range.
pub(crate) fn with_range(
    object: Object,
    alloc: Global,
    range: &Option<TimeRange>,
) -> Result<Object, OutOfMemory>
    ensures { IfOk result (λ made. members made ≡ members_into (members object) (range_rows range.now)) }
{
    let Some(range) = range else {
        return Ok(object);
    };
    let object = with_some_time(object, alloc, "start", &range.start)?;
    with_some_time(object, alloc, "end", &range.end)
}

/// The object with a time as a member, if it is there.
fn with_some_time(
    object: Object,
    alloc: Global,
    name: &str,
    second: &Option<i64>,
) -> Result<Object, OutOfMemory>
    ensures { IfOk result (λ made. members made
        ≡ put_some name.now (option_map time_tree second.now) (members object)) }
{
    match second {
        Some(second) => with_time(object, alloc, name, second),
        None => Ok(object),
    }
}
