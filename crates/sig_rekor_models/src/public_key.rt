//! `PublicKey`: the public key of a signature in Rekor, a text in base64.
ghost use Rattle.std.specs.Prelude.{◌≡◌};
ghost use Rattle.sig_base.specs.Answers.{Answers};
ghost use Rattle.sig_base.specs.declared.error.SigstoreError.TheVariants.{OutOfMemory as Memory};
ghost use Rattle.sig_rekor_models.specs.PublicKey.{decoded_text, key_text};

use sig_base::{Bytes, Result, SigstoreError, Text};
use std::alloc::Global;

/// A public key, or the certificate of one, as the base64 of its PEM.
#[derive(Drop, PartialEq, Eq)]
pub struct PublicKey {
    content: Text,
}

impl PublicKey {
    /// The key of this text.
    pub fn new(content: Text) -> PublicKey
        ensures { key_text result ≡ content }
    {
        PublicKey { content }
    }

    /// The text, in base64.
    pub fn content(&self) -> &str
        ensures { result.now ≡ key_text self.now }
    {
        self.content.as_str()
    }

    /// Returns the text that the base64 is of.
    ///
    /// Errors, the first that applies:
    /// - `Base64DecodeError`: the text is not padded standard base64 (RFC 4648 section 4);
    /// - `Utf8Error`: its bytes are not UTF-8.
    ///
    /// `laws::key_texts` says when each comes.
    #[tactic(auto, using(sig_base::proofs::Utf8Texts::texts), unfolding(crate::specs::PublicKey::decoded_text))]
    pub fn decode(&self, alloc: Global) -> Result<Text>
        ensures { Answers Memory (λ text. text) result (decoded_text (key_text self.now)) }
    {
        let coded = self.content.as_str().as_bytes();
        let Some(bytes) = Bytes::of_base64(alloc, coded)? else {
            return Err(SigstoreError::Base64DecodeError);
        };
        match std::str::from_utf8(bytes.as_slice()) {
            Ok(text) => Ok(Text::copy_of(alloc, text)?),
            Err(_) => Err(SigstoreError::Utf8Error),
        }
    }
}
