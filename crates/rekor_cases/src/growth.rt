//! What heads of logs and consistency proofs of Rekor's API are read as, and whether they show that a log grew.

use crate::parts::{KEY, keyed, made, text};
use crate::shown::{Shown, answer_to};
use sig_base::Result as Read;
use sig_cases::{Answer, Arguments};
use sig_part_cases::checkpoint;
use sig_rekor_models::{
    ConsistencyProof, InactiveShardLogInfo, LogInfo, RekorConsistencyProof, RekorLogInfo, Shards,
};
use std::alloc::Global;

/// `log_info ROOT SIZE CHECKPOINT ID SHARDS`: what `LogInfo::try_from_rekor` reads; without the last two the head has
/// no identifier and no list of shards.
pub(crate) fn log_info(arguments: &mut Arguments<'_>, answer: &mut Answer) {
    let mut api = head(arguments);
    if !arguments.is_empty() {
        api.tree_id = Some(text(arguments));
        api.inactive_shards = Some(shards(arguments, answer));
    }
    answer_to(answer, LogInfo::try_from_rekor(api));
}

/// The head of the next arguments, `ROOT SIZE CHECKPOINT`.
fn head(arguments: &mut Arguments<'_>) -> RekorLogInfo {
    RekorLogInfo {
        root_hash: text(arguments),
        tree_size: arguments.natural(),
        signed_tree_head: checkpoint(arguments),
        tree_id: None,
        inactive_shards: None,
    }
}

/// The shards of the arguments to their end, `ROOT HEAD ID SIZE` each.
fn shards(arguments: &mut Arguments<'_>, answer: &mut Answer) -> Shards {
    let mut shards = Shards::new(arguments.alloc());
    for _ in 0..u64::MAX {
        if arguments.is_empty() {
            break;
        }
        let shard = InactiveShardLogInfo {
            root_hash: text(arguments),
            signed_tree_head: text(arguments),
            tree_id: text(arguments),
            tree_size: arguments.natural(),
        };
        made(answer, shards.push(shard), ());
    }
    shards
}

/// The root, the size, the checkpoint, the identifier and the shards.
impl Shown for LogInfo {
    fn add_to(&self, answer: &mut Answer) {
        answer.hex(&self.root_hash);
        answer.value(&self.tree_size);
        self.signed_tree_head.add_to(answer);
        self.tree_id.add_to(answer);
        self.inactive_shards.add_to(answer);
    }
}

/// How many there are, and each of them after its word.
impl Shown for Shards {
    fn add_to(&self, answer: &mut Answer) {
        answer.value(&self.len());
        for shard in self.as_slice() {
            answer.value(&"shard");
            answer.debug(&shard.root_hash);
            answer.debug(&shard.signed_tree_head);
            answer.debug(&shard.tree_id);
            answer.value(&shard.tree_size);
        }
    }
}

/// `consistency_from_rekor ROOT HASHES`: what `ConsistencyProof::try_from_rekor` reads.
pub(crate) fn consistency_proof(arguments: &mut Arguments<'_>, answer: &mut Answer) {
    let api = api_proof(arguments);
    let read = ConsistencyProof::try_from_rekor(arguments.alloc(), &api);
    answer_to(answer, read);
}

/// The proof of the next arguments, `ROOT HASHES`.
fn api_proof(arguments: &mut Arguments<'_>) -> RekorConsistencyProof {
    RekorConsistencyProof {
        root_hash: text(arguments),
        hashes: arguments.entries(),
    }
}

/// The root, and each hash.
impl Shown for ConsistencyProof {
    fn add_to(&self, answer: &mut Answer) {
        answer.hex(&self.root_hash);
        for hash in self.hashes.as_slice() {
            answer.hex(hash);
        }
    }
}

/// `consistency ROOT HASHES OLDSIZE OLDROOT NEWSIZE NEWROOT`: what `ConsistencyProof::verify` says of the proof that
/// was read; without the last no new root is given.
pub(crate) fn consistency(arguments: &mut Arguments<'_>, answer: &mut Answer) {
    let api = api_proof(arguments);
    let old_size = arguments.natural();
    let old_root = arguments.digest();
    let new_size = arguments.natural();
    let new_root = last_digest(arguments);
    match ConsistencyProof::try_from_rekor(arguments.alloc(), &api) {
        Ok(proof) => {
            let check = proof.verify(old_size, &old_root, new_size, new_root.as_ref());
            answer_to(answer, check);
            drop(proof);
        }
        Err(error) => answer.error(error),
    }
}

/// The last argument as a digest, if it is there.
fn last_digest(arguments: &mut Arguments<'_>) -> Option<[u8; 32]> {
    if arguments.is_empty() {
        None
    } else {
        Some(arguments.digest())
    }
}

/// `grown NOTES SIGNATURES HEADROOT SIZE CHECKPOINT OLDSIZE OLDROOT ROOT HASHES`: what
/// `LogInfo::verify_consistency` says of the head and the proof that were read.
pub(crate) fn grown(arguments: &mut Arguments<'_>, answer: &mut Answer) {
    let by = keyed(arguments, answer, KEY);
    let head = head(arguments);
    let old_size = arguments.natural();
    let old_root = arguments.digest();
    let api = api_proof(arguments);
    match both(arguments.alloc(), head, &api) {
        Ok((info, proof)) => {
            let (key, table) = (&by.key, &by.table);
            let alloc = arguments.alloc();
            let check = info.verify_consistency(alloc, old_size, &old_root, &proof, key, table);
            answer_to(answer, check);
            drop(info);
            drop(proof);
        }
        Err(error) => answer.error(error),
    }
    drop(by);
}

/// The head and the proof that the API's are.
fn both(
    alloc: Global,
    head: RekorLogInfo,
    proof: &RekorConsistencyProof,
) -> Read<(LogInfo, ConsistencyProof)> {
    let info = LogInfo::try_from_rekor(head)?;
    let proof = ConsistencyProof::try_from_rekor(alloc, proof)?;
    Ok((info, proof))
}
