//! The texts of the faults.
use sig_base::OutOfMemory;
use sig_cases::{Answer, Arguments};
use sig_dsse::{DigestName, PayloadFault, SubjectFault};

/// `fault NAME`: the fault of this name.
pub(crate) fn fault(arguments: &mut Arguments<'_>, answer: &mut Answer) {
    let fault = match arguments.word() {
        "TooManySubjects" => SubjectFault::TooManySubjects(1025),
        "TooManyDigests" => SubjectFault::TooManyDigests(33),
        "Malformed" => SubjectFault::Malformed(DigestName::Sha512),
        "NoneRecognized" => SubjectFault::NoneRecognized,
        "NoMemory" => SubjectFault::from(OutOfMemory),
        "NoStatement" => return answer.shown(&PayloadFault::NoStatement),
        _ => return arguments.refuse(),
    };
    answer.shown(&fault);
    answer.value(&PayloadFault::from(fault));
}
