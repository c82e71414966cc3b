//! Names with texts.

use crate::layers::text;
use sig_base::TextMap;
use sig_cases::{Answer, Arguments};

/// The arguments to their end as names with their texts.
pub(crate) fn texts(arguments: &mut Arguments<'_>, answer: &mut Answer) -> TextMap {
    let mut texts = TextMap::new(arguments.alloc());
    for _ in 0..u64::MAX {
        if arguments.is_empty() {
            break;
        }
        let name = text(arguments);
        let value = text(arguments);
        if texts.insert(name.as_str(), value.as_str()).is_err() {
            answer.out_of_memory();
        }
    }
    texts
}
