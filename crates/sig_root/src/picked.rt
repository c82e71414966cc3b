//! What a trusted root has at a time.
ghost use Rattle.std.specs.Prelude.{◌≡◌, ◌++◌, OnOk, IfOk};
ghost use Rattle.sig_root.specs.Picked.{authority_certificates, certificates_at, has_begun, holds, keys_of};
ghost use Rattle.sig_root.specs.Picked.{put_instance};

use crate::record::TimeRange;
use crate::sparse::{SparseAuthority, SparseInstance};
use sig_base::{Entries, KeyMap, OutOfMemory};
use std::alloc::Global;

/// Returns all certificates (DER), in order, of the authorities whose range has begun by this second, counted since
/// 1970. Fails only if out of memory.
pub fn pick_certificates(
    alloc: Global,
    authorities: &[SparseAuthority],
    now: i64,
) -> Result<Entries, OutOfMemory>
    ensures { IfOk result (λ list. list ≡ authority_certificates now authorities.now) }
{
    let mut list = Entries::new(alloc);
    'authorities: for authority in authorities {
        add_certificates(&mut list, authority, now)?;
    }
    Ok(list)
}

/// Adds the certificates of an authority, if its range has begun by this second.
fn add_certificates(
    list: &mut Entries,
    authority: &SparseAuthority,
    now: i64,
) -> Result<(), OutOfMemory>
    ensures { OnOk result (list.new ≡ list.old ++ certificates_at now authority.now) }
{
    let Some(authority) = authority.get() else {
        return Ok(());
    };
    match &authority.cert_chain {
        Some(certificates) if has_begun(&authority.valid_for, now) => add_all(list, certificates),
        _ => Ok(()),
    }
}

/// Whether a range has begun by this second.
pub(crate) fn has_begun(range: &Option<TimeRange>, now: i64) -> bool
    ensures { result ≡ has_begun now range.now }
{
    match range {
        Some(range) => match range.start {
            Some(start) => start <= now,
            None => true,
        },
        None => true,
    }
}

/// Adds copies of these certificates at the end.
fn add_all(list: &mut Entries, certificates: &Entries) -> Result<(), OutOfMemory>
    ensures { OnOk result (list.new ≡ list.old ++ certificates.now) }
{
    for certificate in certificates.as_slice() {
        list.push(certificate.as_slice())?;
    }
    Ok(())
}

/// Returns the keys whose range holds at this second, counted since 1970, by their log ids in lower-case hexadecimal.
/// For equal log ids the last counts. Fails only if out of memory.
pub fn pick_keys(
    alloc: Global,
    instances: &[SparseInstance],
    now: i64,
) -> Result<KeyMap, OutOfMemory>
    ensures { IfOk result (λ keys. keys ≡ keys_of now instances.now) }
{
    let mut keys = KeyMap::new(alloc);
    'instances: for instance in instances {
        put_instance(alloc, &mut keys, instance, now)?;
    }
    Ok(keys)
}

/// Puts the key of an instance under its log id, if it has both and the key's range holds at this second.
#[tactic(auto, unfolding(crate::specs::Picked::key_at, hex::specs::Hex::encode_with))]
fn put_instance(
    alloc: Global,
    keys: &mut KeyMap,
    instance: &SparseInstance,
    now: i64,
) -> Result<(), OutOfMemory>
    ensures { OnOk result (keys.new ≡ put_instance now instance.now keys.old) }
{
    let Some(instance) = instance.get() else {
        return Ok(());
    };
    let (Some(key), Some(id)) = (&instance.public_key, &instance.log_id) else {
        return Ok(());
    };
    match &key.raw_bytes {
        Some(bytes) if holds(&key.valid_for, now) => {
            let name = hex::encode(alloc, id.as_slice())?;
            keys.insert(name.as_str(), bytes.as_slice())
        }
        _ => Ok(()),
    }
}

/// Whether a range holds at this second: whether it has no start, or has begun and has not ended.
fn holds(range: &Option<TimeRange>, now: i64) -> bool
    ensures { result ≡ holds now range.now }
{
    match range {
        Some(range) => match (range.start, range.end) {
            (Some(start), Some(end)) => start <= now && now <= end,
            (Some(start), None) => start <= now,
            (None, _) => true,
        },
        None => true,
    }
}
