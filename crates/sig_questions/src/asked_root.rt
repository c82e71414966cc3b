//! `AskedRoot`: a trusted root that is read once for the questions of many bundles.
ghost use Rattle.std.specs.Prelude.{◌≡◌, IfOk, Some};
ghost use Rattle.sig_verify.specs.OfflineErrors.{IsRootRefusal, link_of, of_root};
ghost use Rattle.sig_questions.specs.AskedRoot.{IsAskedRootIn, IsTrustIn};

use crate::front::unread;
use crate::listing::NoQuestions;
use crate::trust::{TrustParts, read_trust};
use sig_base::{OutOfMemory, PoolError, SigstoreError, TrustPart};
use sig_root::{SigstoreTrustRoot, read_trusted_root};
use sig_verify::laws::roots;
use sig_verify::{Link, Verifier};
use std::alloc::Global;

/// What a trusted root gives at a time: what the questions of bundles are made from, or which link fails. It is read
/// and made once, by [`AskedRoot::read`], for all bundles of which [`AskedRoot::questions`] lists the questions.
#[derive(Drop)]
pub struct AskedRoot {
    /// The link is the first of `fulcio`, `anchor` and `ctfe` that fails.
    pub(crate) trust: Result<AskedTrust, Link>,
}

/// What the questions of bundles are made from.
#[derive(Drop)]
pub(crate) struct AskedTrust {
    /// The verifier, which checks the links of a bundle that do not ask for a signature.
    pub(crate) verifier: Verifier,
    pub(crate) parts: TrustParts,
}

impl AskedRoot {
    /// Returns what this text, a trusted root, gives at a time in whole seconds since 1970. Fails with `Link` of
    /// `root-json` if and only if the text is not a trusted root, unless memory runs out, and else only with
    /// `OutOfMemory`. The links `fulcio`, `anchor` and `ctfe` come after `bundle-json`: the first of them that fails is
    /// kept, and [`AskedRoot::questions`] fails with it.
    pub fn read(alloc: Global, text: &[u8], now: i64) -> Result<AskedRoot, NoQuestions>
        ensures { IsAskedRootIn text.now now result }
    {
        match read_trusted_root(alloc, text) {
            Ok(root) => {
                let root = SigstoreTrustRoot::of(root);
                let asked = AskedRoot::new(alloc, &root, now)?;
                Ok(asked)
            }
            Err(error) => Err(unread(Link::RootJson, error)),
        }
    }

    /// What a trusted root gives at a time. Fails only if out of memory.
    fn new(alloc: Global, root: &SigstoreTrustRoot, now: i64) -> Result<AskedRoot, OutOfMemory>
        ensures { IfOk result (λ asked. IsTrustIn root.now now asked.trust) }
    {
        // What a verifier of a trusted root says of its links, and what its error does.
        roots();
        match Verifier::new(alloc, root, now) {
            Ok(verifier) => {
                let parts = read_trust(alloc, root, now)?;
                Ok(AskedRoot {
                    trust: Ok(AskedTrust { verifier, parts }),
                })
            }
            Err(error) => {
                let link = refused_link(error)?;
                Ok(AskedRoot { trust: Err(link) })
            }
        }
    }
}

/// Which of `fulcio`, `anchor`, `ctfe` fails, by the error of `Verifier::new`. Fails only if out of memory.
fn refused_link(error: SigstoreError) -> Result<Link, OutOfMemory>
    requires { IsRootRefusal error }
    ensures { IfOk result (λ link. link_of (of_root error) ≡ Some link) }
{
    match error {
        SigstoreError::TufMetadataError(TrustPart::Fulcio) => Ok(Link::Fulcio),
        SigstoreError::TufMetadataError(TrustPart::Ctfe) => Ok(Link::Ctfe),
        SigstoreError::CertificatePoolError(PoolError::Anchor(_)) => Ok(Link::Anchor),
        SigstoreError::OutOfMemory => Err(OutOfMemory),
        // `Verifier::new` has no other errors.
        _ => unreachable!(),
    }
}
