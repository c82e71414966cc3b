//! The texts of errors.
use sig_base::OutOfMemory;
use sig_cases::Answer;
use sig_json::{DocumentError, JsonError, MemberError};
use sig_json_text::CanonicalError;

/// `errors`: each variant by its Debug text, which begins with its Display text, type by type, and then what each is
/// converted to.
pub(crate) fn errors(answer: &mut Answer) {
    answer.ok();
    answer.each_shown(&[
        DocumentError::NotJson,
        DocumentError::Float,
        DocumentError::OutOfMemory,
    ]);
    answer.each_shown(&[
        MemberError::Member,
        MemberError::OutOfMemory,
        MemberError::from(OutOfMemory),
    ]);
    answer.each_shown(&[
        JsonError::NotJson,
        JsonError::Float,
        JsonError::Member,
        JsonError::OutOfMemory,
        JsonError::from(DocumentError::NotJson),
        JsonError::from(DocumentError::Float),
        JsonError::from(DocumentError::OutOfMemory),
        JsonError::from(MemberError::Member),
        JsonError::from(MemberError::OutOfMemory),
    ]);
    answer.each_shown(&[
        CanonicalError::IntegerTooLarge,
        CanonicalError::OutOfMemory,
        CanonicalError::from(OutOfMemory),
    ]);
}
