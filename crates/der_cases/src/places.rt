//! Calls that tell where an element begins and ends.

use crate::calls::tag;
use sig_cases::{Answer, Arguments};
use sig_der::{Place, Reader, whole_key_info};

/// `place_at BYTES AT END`: the tag, and where the element, its content and what follows begin.
pub(crate) fn front(arguments: &mut Arguments<'_>, answer: &mut Answer) {
    let bytes = arguments.hex();
    let at = arguments.natural();
    let end = arguments.natural();
    if at > end || end > bytes.len() as u64 {
        return arguments.refuse();
    }
    let reader = Reader {
        bytes: &bytes,
        at: at as usize,
        end: end as usize,
    };
    match reader.any() {
        Some((place, _)) => {
            answer.ok();
            placed(answer, place);
        }
        None => answer.value(&"none"),
    }
}

fn placed(answer: &mut Answer, place: Place) {
    answer.hex(&[place.tag]);
    answer.value(&place.start);
    answer.value(&place.content);
    answer.value(&place.end);
}

/// `optional_at BYTES TAG`: where what follows begins, and the element, if there is one.
pub(crate) fn optional(arguments: &mut Arguments<'_>, answer: &mut Answer) {
    let bytes = arguments.hex();
    match Reader::new(&bytes).optional(tag(arguments)) {
        Some((place, rest)) => {
            answer.ok();
            answer.value(&rest.at);
            if let Some(place) = place {
                placed(answer, place);
            }
        }
        None => answer.value(&"none"),
    }
}

/// `whole_at BYTES TAG`: the element that the bytes are.
pub(crate) fn whole(arguments: &mut Arguments<'_>, answer: &mut Answer) {
    let bytes = arguments.hex();
    match Reader::new(&bytes).whole(tag(arguments)) {
        Some(place) => {
            answer.ok();
            placed(answer, place);
        }
        None => answer.value(&"none"),
    }
}

/// `key_info BYTES`: the object identifier of the algorithm, the tag of its parameters or `-`, and the bits.
pub(crate) fn key_info(arguments: &mut Arguments<'_>, answer: &mut Answer) {
    let bytes = arguments.hex();
    match whole_key_info(&bytes) {
        Some(info) => {
            let oid = info.algorithm.oid;
            answer.ok();
            answer.hex(&bytes[oid.content..oid.end]);
            match info.algorithm.parameters {
                Some(parameters) => answer.hex(&[parameters.tag]),
                None => answer.hex(&[]),
            }
            answer.hex(&bytes[info.bits..info.whole.end]);
        }
        None => answer.value(&"none"),
    }
}
