//! What the definitions mean. The laws here have no code; each call is a law.
ghost use Rattle.sig_questions.specs.Few.{QuestionsAreFew};
ghost use Rattle.sig_questions.specs.Listed.{ListedTextsAreAnswered};
ghost use Rattle.sig_questions.specs.Matters.{EachQuestionMatters, IssuerRestsOnSteps};
ghost use Rattle.sig_questions.specs.Places.{PairsAreInOrder, SignersAreInOrder};
ghost use Rattle.sig_questions.specs.Questions.{QuestionsAreOneList, QuestionsHaveSchemes};
ghost use Rattle.sig_questions.specs.Questions.{QuestionsSuffice, RefusalsAreForAll};

use sig_certificate::laws::certificates;

/// Two checkers that agree on each question have the same links that hold, under every policy.
pub fn questions_suffice()
    ensures { QuestionsSuffice }
{
    // Bytes are at most one certificate.
    certificates();
}

/// With the row of a question in a table some link holds that does not hold without it; or the row is the signature of
/// an intermediate in a path that would lead to a trust anchor if every signature of a certificate were genuine, and
/// the path has a shortcut past that signature.
pub fn each_matters()
    ensures { EachQuestionMatters }
{
    // Bytes are at most one certificate.
    certificates();
}

/// There is a table with which `issuer` holds where it has the row, and does not where it lacks the row, if and only if
/// a path that would lead to a trust anchor has the row as a signature of a certificate past which no shortcut goes: no
/// intermediate below the signature, the signed one included, has the subject and the SPKI of one above it, or of a
/// trust anchor.
pub fn issuer_rests()
    ensures { IssuerRestsOnSteps }
{
    // Bytes are at most one certificate.
    certificates();
}

/// Inputs have one list of questions.
pub fn one_list()
    ensures { QuestionsAreOneList }
{
    // Bytes are at most one certificate.
    certificates();
}

/// The keys are those of the trust anchors in order, and then those of the further certificates in order. The
/// signatures are that of the certificate under each key in order, and then those of the further certificates in order,
/// each in the same way.
pub fn places()
    ensures signers { SignersAreInOrder }
    ensures pairs { PairsAreInOrder }
{}

/// Each question has a scheme that its operation may have.
pub fn schemes()
    ensures { QuestionsHaveSchemes }
{}

/// For n trust anchors at most 17 times (16 + n) questions are about signatures of certificates, and at most 16 + n
/// about SCTs.
pub fn few()
    ensures { QuestionsAreFew }
{}

/// A link before a question is the first that fails if and only if this holds whatever the checker and the policy say.
pub fn refusals()
    ensures { RefusalsAreForAll }
{}

/// If the links before `issuer` hold of texts, what is listed are the questions, in order, or nothing if no path
/// would lead to a trust anchor.
pub(crate) fn listed_texts()
    ensures { ListedTextsAreAnswered }
{
    // Bytes are at most one certificate.
    certificates();
}
