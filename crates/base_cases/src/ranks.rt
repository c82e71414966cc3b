//! Calls of sig_base on the ranks of texts.

use sig_base::{OutOfMemory, rank_from, shared};
use sig_cases::{Answer, Arguments};
use std::alloc::Global;

/// `rank TEXT FROM`: the rank of a text from this byte on.
pub(crate) fn rank(arguments: &mut Arguments<'_>, answer: &mut Answer) {
    let text = arguments.hex();
    let from = arguments.natural();
    answer.ok();
    answer.value(&rank_from(&text, from as usize));
}

/// `shared TEXTS`: with how many bytes all begin alike.
pub(crate) fn shared_start(arguments: &mut Arguments<'_>, answer: &mut Answer) {
    let texts = arguments.hex_list();
    match borrowed(arguments.alloc(), &texts) {
        Ok(borrowed) => {
            answer.ok();
            answer.value(&shared(&borrowed));
        }
        Err(_) => answer.out_of_memory(),
    }
}

/// The texts, borrowed.
fn borrowed<'a>(alloc: Global, texts: &'a [Vec<u8>]) -> Result<Vec<&'a [u8]>, OutOfMemory> {
    let mut borrowed = Vec::new(alloc);
    'texts: for text in texts {
        borrowed.push(text.as_slice())?;
    }
    Ok(borrowed)
}
