//! Keys by the ids of their logs.

use sig_cases::Arguments;
use sig_key::{CosignVerificationKey, VerificationKeys};

/// The next arguments as keys: how many there are, and of each its name, the name of its scheme and its DER.
pub(crate) fn keys(arguments: &mut Arguments<'_>) -> VerificationKeys {
    let mut keys = VerificationKeys::new(arguments.alloc());
    let count = arguments.natural();
    for _ in 0..count {
        if arguments.is_empty() {
            break;
        }
        insert(arguments, &mut keys);
    }
    keys
}

/// Adds the key of the next three arguments.
fn insert(arguments: &mut Arguments<'_>, keys: &mut VerificationKeys) {
    let name = arguments.text();
    let scheme = arguments.signing_scheme();
    let der = arguments.hex();
    match CosignVerificationKey::from_der(arguments.alloc(), &der, &scheme) {
        Ok(key) => {
            if keys.insert(name.as_str(), key).is_err() {
                arguments.refuse();
            }
        }
        Err(_) => arguments.refuse(),
    }
}
