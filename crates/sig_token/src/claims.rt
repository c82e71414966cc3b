//! `Claims`: what a token says (RFC 7519 section 4.1).
//!
//! ```text
//! {"aud":"sigstore","exp":1702447256,"nbf":1702446656,"email":"signer@example.com"}
//! ```
ghost use Rattle.std.specs.Prelude.{◌↔◌, IsTrue, Option};
ghost use Rattle.sig_base.specs.Answers.{Answers};
ghost use Rattle.sig_json.specs.Data.{Data};
ghost use Rattle.sig_json.specs.Tree.{tree};
ghost use Rattle.sig_token.specs.Claims.{claims_in, claims_of};
ghost use Rattle.sig_token.specs.Period.{IsInPeriod};

use sig_base::Text;
use sig_json::{
    ElementReader, I64NumberReader, Json, JsonError, MemberError, optional, read_record_with,
    required, required_text,
};
use std::alloc::Global;

/// What a token says of its bearer. It is not checked who says it.
#[derive(Drop)]
pub struct Claims {
    /// Whom the token is for: the audience (RFC 7519 section 4.1.3).
    pub aud: Text,
    /// When the token expires, in seconds since 1970 (section 4.1.4).
    pub exp: i64,
    /// The second since 1970 before which the token does not count (section 4.1.5).
    pub nbf: Option<i64>,
    /// The address of the token's subject.
    pub email: Text,
}

/// Claims of a token whose signature is not checked: this holds of all claims here.
pub type UnverifiedClaims = Claims;

impl Claims {
    /// Whether the claims hold at this second since 1970 as they state it: it is not before `nbf`, if that is there,
    /// and before `exp`.
    pub(crate) fn hold_at(&self, now: i64) -> bool
        ensures { IsTrue result ↔ IsInPeriod self.now now }
    {
        let has_begun = match self.nbf {
            Some(start) => start <= now,
            None => true,
        };
        has_begun && now < self.exp
    }
}

/// The names of the members that are read. No tree is made of a member of another name.
const MEMBERS: [&str; 4] = ["aud", "exp", "nbf", "email"];

enum ClaimsReader {}

impl ElementReader for ClaimsReader {
    type Item = Claims;

    ghost meaning = { claims_of };

    #[tactic(auto, unfolding(crate::specs::Claims::claims_of))]
    fn read(alloc: Global, json: Json<'_, '_>) -> Result<Claims, MemberError> {
        Ok(Claims {
            aud: required_text(alloc, json, "aud")?,
            exp: required::<I64NumberReader>(alloc, json, "exp")?,
            nbf: optional::<I64NumberReader>(alloc, json, "nbf")?,
            email: required_text(alloc, json, "email")?,
        })
    }
}

/// The claims that a text is: an object of the texts `aud` and `email`, the number `exp`, and the number `nbf`, which
/// may be absent or null. Other members are ignored. Fails with `NotJson` if the text has no reading, then with `Float`
/// if a number in it is held as a float, and then with `Member` if it is not such an object.
pub(crate) fn read_claims(alloc: Global, text: &[u8]) -> Result<Claims, JsonError>
    ensures { Answers JsonError.OutOfMemory (λ claims. claims) result (claims_in text.now) }
{
    read_record_with::<ClaimsReader>(alloc, text, &MEMBERS)
}
