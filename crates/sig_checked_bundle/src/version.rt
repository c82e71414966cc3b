//! `Version`: the versions of the bundle format, by their media types.

ghost use Rattle.std.specs.Prelude.{Some};
ghost use Rattle.sig_checked_bundle.specs.Version.{media_type, IsVersionRead};

use std::fmt;
use std::str::FromStr;

/// A version of the Sigstore bundle format. Each names a profile, which says what a bundle's log entry has to have.
#[allow(non_camel_case_types)]
#[derive(Clone, Copy, Debug, PartialEq, Eq)]
pub enum Version {
    /// 0.1: the log's promise is required.
    Bundle0_1,
    /// 0.2: an inclusion proof with a checkpoint is required.
    Bundle0_2,
    /// 0.3: as 0.2, under a media type of another form.
    Bundle0_3,
}

/// Shows the media type of the version.
impl fmt::Display for Version {
    ghost output = { λ version. Some (media_type version) };

    fn fmt<W: fmt::Write>(&self, f: &mut fmt::Formatter<W>) -> fmt::Result {
        f.write_str(match self {
            Version::Bundle0_1 => "application/vnd.dev.sigstore.bundle+json;version=0.1",
            Version::Bundle0_2 => "application/vnd.dev.sigstore.bundle+json;version=0.2",
            Version::Bundle0_3 => "application/vnd.dev.sigstore.bundle.v0.3+json",
        })
    }
}

/// Reads a media type: one of those that Display writes, or `application/vnd.dev.sigstore.bundle+json;version=0.3`,
/// another name of 0.3. Fails if and only if the text is not one of these four. It takes no memory.
impl FromStr for Version {
    type Err = ();

    ghost from_str_gives = { λ text read. IsVersionRead text read };

    #[tactic(auto, using(crate::proofs::VersionLaws::unnamed))]
    fn from_str(text: &str) -> Result<Version, ()> {
        match text {
            "application/vnd.dev.sigstore.bundle+json;version=0.1" => Ok(Version::Bundle0_1),
            "application/vnd.dev.sigstore.bundle+json;version=0.2" => Ok(Version::Bundle0_2),
            "application/vnd.dev.sigstore.bundle.v0.3+json" => Ok(Version::Bundle0_3),
            "application/vnd.dev.sigstore.bundle+json;version=0.3" => Ok(Version::Bundle0_3),
            _ => Err(()),
        }
    }
}
