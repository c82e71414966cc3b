//! What a case verifies a bundle with.

use crate::policy::policy;
use sig_base::{KeyMap, TableChecker, Text};
use sig_bundle::{Bundle, read_bundle};
use sig_cases::{Answer, Arguments};
use sig_verify::ManualTrustRoot;
use sig_x509::RequestPolicy;

/// The bundle, and what it is verified with.
#[derive(Drop)]
pub(crate) struct Parts {
    pub(crate) policy: RequestPolicy,
    pub(crate) root: ManualTrustRoot,
    pub(crate) bundle: Bundle,
    pub(crate) checker: TableChecker,
}

impl Parts {
    /// The parts of the last arguments, `POLICY ROOT BUNDLE ROW ..`.
    pub(crate) fn read(arguments: &mut Arguments<'_>, answer: &mut Answer) -> Parts {
        Parts {
            policy: policy(arguments, answer),
            root: root(arguments, answer),
            bundle: bundle(arguments),
            checker: arguments.checker(),
        }
    }
}

/// The trust root of the next arguments, `CERTIFICATES KEYS KEYS`: those of the authorities, a list, and the keys of
/// logs and of Certificate Transparency logs.
fn root(arguments: &mut Arguments<'_>, answer: &mut Answer) -> ManualTrustRoot {
    ManualTrustRoot {
        fulcio_certs: arguments.entries(),
        rekor_keys: keys(arguments, answer),
        ctfe_keys: keys(arguments, answer),
    }
}

/// The keys of the next arguments, `COUNT ID KEY ..`.
pub(crate) fn keys(arguments: &mut Arguments<'_>, answer: &mut Answer) -> KeyMap {
    let mut keys = KeyMap::new(arguments.alloc());
    for _ in 0..arguments.natural() {
        let id = arguments.word();
        let key = arguments.hex();
        if keys.insert(id, &key).is_err() {
            answer.out_of_memory();
        }
    }
    keys
}

/// The bundle of the next argument.
pub(crate) fn bundle(arguments: &mut Arguments<'_>) -> Bundle {
    let text = arguments.text();
    match read_bundle(arguments.alloc(), text.as_bytes()) {
        Ok(bundle) => bundle,
        Err(_) => {
            arguments.refuse();
            Bundle {
                media_type: Text::from(String::new(arguments.alloc())),
                verification_material: None,
                content: None,
            }
        }
    }
}
