//! The links of the chain of trust, and their names.
ghost use Rattle.std.specs.Prelude.{◌≡◌};
ghost use Rattle.sig_verify.specs.Link.{link_name};

/// A link of the chain of trust, in order. Each is checked only if all before it hold.
#[derive(Clone, Copy, PartialEq, Eq)]
pub enum Link {
    /// The text is a request; only the program checks it.
    Request,
    /// The trusted root reads as one.
    RootJson,
    /// The bundle reads as one.
    BundleJson,
    /// The trusted root has certificates of authorities.
    Fulcio,
    /// Each of these is a trust anchor.
    Anchor,
    /// The trusted root has keys of Certificate Transparency logs.
    Ctfe,
    /// The bundle has verification material that can be read.
    Material,
    /// Each of its certificates is well-formed.
    Certificate,
    /// The first of them may sign.
    Leaf,
    /// None of the others is a root.
    RootInChain,
    /// The bundle has content.
    Content,
    /// Its envelope has one signature over a statement with digests.
    Envelope,
    /// There is one log entry.
    Entry,
    /// The media type is known, and the entry has what it requires.
    Profile,
    /// The certificate has the profile of one that is issued.
    Issuance,
    /// A certification path leads from it to a trust anchor.
    Issuer,
    /// A Certificate Transparency log vouches for it.
    Sct,
    /// The policy holds of it.
    Policy,
    /// Its key is of a kind that signatures are checked with.
    Key,
    /// The key's signature is over the content.
    Signature,
    /// The content is about the artifact.
    Subject,
    /// The log entry is about the content.
    Body,
    /// The entry was logged while the certificate was valid.
    Time,
    /// The trusted root has a key of the log.
    LogKey,
    /// The log promised to include the entry.
    Promise,
    /// There is an inclusion proof with a checkpoint, of hashes of 32 bytes and a size that is not negative.
    Proof,
    /// Its checkpoint can be read.
    Checkpoint,
    /// The log signed the checkpoint.
    NoteKey,
    /// The checkpoint is of the proof's tree.
    NoteMatch,
    /// The audit path leads from the entry to the root.
    Inclusion,
    /// The tree has the older one as its first leaves; only the program checks it.
    Consistency,
}

impl Link {
    /// Returns the name that a reply shows.
    pub fn name(self) -> &'static str
        ensures { result.now ≡ link_name self }
    {
        match self {
            Link::Request => "request",
            Link::RootJson => "root-json",
            Link::BundleJson => "bundle-json",
            Link::Fulcio => "fulcio",
            Link::Anchor => "anchor",
            Link::Ctfe => "ctfe",
            Link::Material => "material",
            Link::Certificate => "certificate",
            Link::Leaf => "leaf",
            Link::RootInChain => "root-in-chain",
            Link::Content => "content",
            Link::Envelope => "envelope",
            Link::Entry => "entry",
            Link::Profile => "profile",
            Link::Issuance => "issuance",
            Link::Issuer => "issuer",
            Link::Sct => "sct",
            Link::Policy => "policy",
            Link::Key => "key",
            Link::Signature => "signature",
            Link::Subject => "subject",
            Link::Body => "body",
            Link::Time => "time",
            Link::LogKey => "log-key",
            Link::Promise => "promise",
            Link::Proof => "proof",
            Link::Checkpoint => "checkpoint",
            Link::NoteKey => "note-key",
            Link::NoteMatch => "note-match",
            Link::Inclusion => "inclusion",
            Link::Consistency => "consistency",
        }
    }
}
