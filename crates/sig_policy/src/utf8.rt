//! Bytes that may be a text.

ghost use Rattle.std.specs.Prelude.{◌≡◌, option_map};
ghost use Rattle.sig_policy.specs.Texts.{utf8_text};

/// Returns the text that the bytes are. `None` if they are not UTF-8.
#[tactic(auto, using(crate::proofs::Utf8Laws::utf8_some, crate::proofs::Utf8Laws::utf8_none))]
pub(crate) fn utf8_text(bytes: &[u8]) -> Option<&str>
    ensures { option_map (λ t. t.now) result ≡ utf8_text bytes.now }
{
    match std::str::from_utf8(bytes) {
        Ok(text) => Some(text),
        Err(_) => None,
    }
}
