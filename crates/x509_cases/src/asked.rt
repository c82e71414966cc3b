//! Which keys a pool asks its checker about, and in which order.

use crate::certificate::certificate;
use crate::pool::place;
use sig_cases::{Answer, Arguments, Recorder};
use sig_part_cases::pool;
use sig_x509::uncounted;

/// `asked TIME LEAF ANCHOR,.. INTERMEDIATE,.. ROW ..`: what `verify_cert_with_time` returns, and each key that the
/// checker was asked about, in order.
pub(crate) fn asked(arguments: &mut Arguments<'_>, answer: &mut Answer) {
    let time = arguments.integer();
    let leaf = certificate(arguments, answer);
    let anchors = pool(arguments, answer);
    let recorder = Recorder::new(arguments.alloc(), arguments.checker());
    if let (Some(leaf), Some(anchors)) = (&leaf, &anchors) {
        place(
            answer,
            uncounted::verify_cert_with_time(anchors, arguments.alloc(), leaf, time, &recorder),
        );
    }
    recorder.keys_in(answer);
}

/// `der_asked TIME LEAF ANCHOR,.. INTERMEDIATE,.. ROW ..`: the same for `verify_der_cert`.
pub(crate) fn der_asked(arguments: &mut Arguments<'_>, answer: &mut Answer) {
    let time = arguments.integer();
    let leaf = arguments.hex();
    let anchors = pool(arguments, answer);
    let recorder = Recorder::new(arguments.alloc(), arguments.checker());
    if let Some(anchors) = &anchors {
        place(
            answer,
            uncounted::verify_der_cert(anchors, arguments.alloc(), &leaf, time, &recorder),
        );
    }
    recorder.keys_in(answer);
}

/// `questions TIME LEAF ANCHOR,.. INTERMEDIATE,.. ROW ..`: what `verify_cert_with_time` returns, and how many
/// signatures the checker was asked about.
pub(crate) fn questions(arguments: &mut Arguments<'_>, answer: &mut Answer) {
    let time = arguments.integer();
    let leaf = certificate(arguments, answer);
    let pool = pool(arguments, answer);
    let recorder = Recorder::new(arguments.alloc(), arguments.checker());
    if let (Some(leaf), Some(pool)) = (&leaf, &pool) {
        place(
            answer,
            uncounted::verify_cert_with_time(pool, arguments.alloc(), leaf, time, &recorder),
        );
    }
    recorder.count_in(answer);
}
