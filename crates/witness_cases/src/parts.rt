//! What a case is read into. What cannot be read is empty, and makes the line a bad one.

use sig_base::{Hashes, OwnedList};
use sig_cases::{Answer, Arguments};
use sig_key::CosignVerificationKey;
use sig_part_cases::{checkpoint, verification_key};
use sig_rekor::SignedCheckpoint;

/// An update, and how often it is made.
#[derive(Drop)]
pub(crate) struct Update {
    pub(crate) times: u64,
    pub(crate) checkpoint: SignedCheckpoint,
    pub(crate) old_size: u64,
    pub(crate) hashes: Hashes,
}

/// Updates in order.
pub(crate) type Updates = OwnedList<Update>;

/// The next arguments as updates: how many there are, and for each how often it is made, its checkpoint, its old size
/// and its hashes.
pub(crate) fn updates(arguments: &mut Arguments<'_>, answer: &mut Answer) -> Updates {
    let mut updates = Updates::new(arguments.alloc());
    let count = arguments.natural();
    for _ in 0..count {
        if arguments.is_empty() {
            break;
        }
        let update = Update {
            times: arguments.natural(),
            checkpoint: checkpoint(arguments),
            old_size: arguments.natural(),
            hashes: arguments.hashes(),
        };
        if updates.push(update).is_err() {
            answer.out_of_memory();
        }
    }
    updates
}

/// The next arguments as the name of a scheme and the bytes of a key.
pub(crate) fn key(arguments: &mut Arguments<'_>, answer: &mut Answer) -> CosignVerificationKey {
    let scheme = arguments.signing_scheme();
    let bytes = arguments.hex();
    verification_key(arguments.alloc(), answer, &bytes, &scheme)
}
