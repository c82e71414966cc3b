//! What follows from the definitions of the constraints. No function here does anything: each states laws, and its proof
//! is that they hold.

ghost use Rattle.std.specs.Prelude.{◌≡◌, ◌↔◌, ℕ, List, Some, Option, true};
ghost use Rattle.sig_base.specs.ByText.{KeysAscend};
ghost use Rattle.sig_payload.specs.Annotations.{Asked, satisfies};
ghost use Rattle.sig_cosign.specs.Layer.{Layer};
ghost use Rattle.sig_signer.specs.Signer.{Signer};
ghost use Rattle.sig_constraint.specs.Marked.{AreFree, HaveTexts, KeepOthers, marked, marker_gives};
ghost use Rattle.sig_constraint.specs.Subjects.{IsOfEmail, IsOfUrl, is_of_email, is_of_url};
ghost use Rattle.sig_constraint.specs.declared.string_verifier.StringVerifier.{StringVerifier};

use crate::string_verifier::StringVerifier;

/// An annotation marker applies if and only if no name has a value other than its text. In the layer that it gives each
/// name has its text, every other name has what it had, and so the layer has the annotations that are asked for.
pub fn marker_laws()
    ensures given { (asked : Asked) (l : Layer) → (marker_gives asked l ≡ Some (marked asked l))
        ↔ AreFree l.simple_signing.optional asked }
    ensures texts { (asked : Asked) (l : Layer) → KeysAscend asked
        → HaveTexts (marked asked l).simple_signing.optional asked }
    ensures others { (asked : Asked) (l : Layer)
        → KeepOthers l.simple_signing.optional (marked asked l).simple_signing.optional asked }
    ensures satisfied { (asked : Asked) (l : Layer) → KeysAscend asked
        → satisfies (marked asked l).simple_signing asked ≡ true }
{}

/// The verifiers of subjects hold if and only if the certificate names the subject, and the issuer is the one asked for.
pub fn subject_laws()
    ensures email { (email : StringVerifier) (issuer : Option StringVerifier) (signer : Option Signer)
        → (is_of_email email issuer signer ≡ true) ↔ IsOfEmail email issuer signer }
    ensures url { (url issuer : List ℕ) (signer : Option Signer) → (is_of_url url issuer signer ≡ true)
        ↔ IsOfUrl url issuer signer }
{}
