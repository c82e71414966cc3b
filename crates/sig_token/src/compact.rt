//! The three parts of a token: its header, its payload and its signature, joined by points (RFC 7515 section 7.1, JWS
//! Compact Serialization).
ghost use Rattle.std.specs.Prelude.{◌≡◌, [], ◌∷◌, option_map, MatchOption};
ghost use Rattle.std.specs.List.{slice_split};
ghost use Rattle.sig_token.specs.Compact.{is_point, payload_of};

/// The payload of a token, or `None` if the text is not three parts with a point between each two.
#[tactic(auto, unfolding(crate::specs::Compact::payload_of))]
pub(crate) fn payload(text: &str) -> Option<&str>
    ensures { option_map (λ payload. payload.now) result ≡ payload_of text.now }
{
    let Some((_, after_header)) = cut(text) else {
        return None;
    };
    let Some((payload, signature)) = cut(after_header) else {
        return None;
    };
    match cut(signature) {
        Some(_) => None,
        None => Some(payload),
    }
}

/// What is before and after the first point, or `None` if there is none.

fn cut(text: &str) -> Option<(&str, &str)>
    ensures { MatchOption result (slice_split is_point text.now ≡ text.now ∷ [])
        (λ parts. slice_split is_point text.now ≡ parts.0.now ∷ slice_split is_point parts.1.now) }
{
    text.split_once('.')
}
