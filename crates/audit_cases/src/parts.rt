//! What a case is read into. What cannot be read is empty, and makes the line a `bad line`.

use sig_audit::{AuditHead, Heads, Watch, WatchList};
use sig_base::SigningScheme;
use sig_cases::{Answer, Arguments};
use sig_key::CosignVerificationKey;
use sig_part_cases::{checkpoint, verification_key};

/// The next argument as the bytes of a key, whose scheme is ECDSA over P-256.
pub(crate) fn key(arguments: &mut Arguments<'_>, answer: &mut Answer) -> CosignVerificationKey {
    let bytes = arguments.hex();
    verification_key(arguments.alloc(), answer, &bytes, &SigningScheme::default())
}

/// The next arguments as heads: how many there are, and of each its checkpoint and its hashes.
pub(crate) fn heads(arguments: &mut Arguments<'_>, answer: &mut Answer) -> Heads {
    let mut heads = Heads::new(arguments.alloc());
    let count = arguments.natural();
    for _ in 0..count {
        if arguments.is_empty() {
            break;
        }
        let head = AuditHead {
            checkpoint: checkpoint(arguments),
            hashes: arguments.hashes(),
        };
        if heads.push(head).is_err() {
            answer.out_of_memory();
        }
    }
    heads
}

/// The next arguments as watches: how many there are, and of each its head, its index, its hashes and its entry.
pub(crate) fn watches(arguments: &mut Arguments<'_>, answer: &mut Answer) -> WatchList {
    let mut watched = WatchList::new(arguments.alloc());
    let count = arguments.natural();
    for _ in 0..count {
        if arguments.is_empty() {
            break;
        }
        let watch = Watch {
            head: arguments.natural() as usize,
            index: arguments.natural(),
            hashes: arguments.hashes(),
            entry: arguments.bytes(),
        };
        if watched.push(watch).is_err() {
            answer.out_of_memory();
        }
    }
    watched
}
