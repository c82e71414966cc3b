//! Checkpoints.
use sig_base::Text;
use sig_cases::Arguments;
use sig_rekor::{Checkpoint, CheckpointSignatures, OtherContents, SignedCheckpoint};
use std::alloc::Global;

/// The next argument as a checkpoint.
pub fn checkpoint(arguments: &mut Arguments<'_>) -> SignedCheckpoint {
    match SignedCheckpoint::decode(arguments.alloc(), arguments.text().as_str()) {
        Ok(checkpoint) => checkpoint,
        Err(error) => {
            drop(error);
            arguments.refuse();
            no_checkpoint(arguments.alloc())
        }
    }
}

fn no_checkpoint(alloc: Global) -> SignedCheckpoint {
    SignedCheckpoint {
        note: Checkpoint {
            origin: Text::from(String::new(alloc)),
            size: 0,
            hash: [0; 32],
            other_content: OtherContents::new(alloc),
        },
        signatures: CheckpointSignatures::new(alloc),
    }
}
