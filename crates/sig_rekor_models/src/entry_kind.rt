//! `EntryKind`: the kinds of entries that Rekor logs, by their names.

/// A kind of entries of Rekor. Each kind has a form of its own for what an entry says.
#[derive(Clone, Copy, Debug, PartialEq, Eq)]
pub enum EntryKind {
    /// Packages of Alpine.
    Alpine,
    /// Signatures over hashes.
    Hashedrekord,
    /// Charts of Helm.
    Helm,
    /// Attestations of in-toto.
    Intoto,
    /// Archives of Java.
    Jar,
    /// Signatures over artifacts.
    Rekord,
    /// Timestamps by RFC 3161.
    Rfc3161,
    /// Packages of RPM.
    Rpm,
    /// Metadata of The Update Framework.
    Tuf,
}

impl EntryKind {
    ghost use Rattle.std.specs.Prelude.{◌≡◌};
    ghost use Rattle.sig_rekor_models.specs.EntryKind.{kind_name, kind_named};

    /// Returns the kind's name, in lower case.
    pub fn name(self) -> &'static str
        ensures { result.now ≡ kind_name self }
    {
        match self {
            EntryKind::Alpine => "alpine",
            EntryKind::Hashedrekord => "hashedrekord",
            EntryKind::Helm => "helm",
            EntryKind::Intoto => "intoto",
            EntryKind::Jar => "jar",
            EntryKind::Rekord => "rekord",
            EntryKind::Rfc3161 => "rfc3161",
            EntryKind::Rpm => "rpm",
            EntryKind::Tuf => "tuf",
        }
    }

    /// Returns the kind of this name, `None` if no kind has it.
    pub fn named(name: &str) -> Option<EntryKind>
        ensures { result ≡ kind_named name.now }
    {
        match name {
            "alpine" => Some(EntryKind::Alpine),
            "hashedrekord" => Some(EntryKind::Hashedrekord),
            "helm" => Some(EntryKind::Helm),
            "intoto" => Some(EntryKind::Intoto),
            "jar" => Some(EntryKind::Jar),
            "rekord" => Some(EntryKind::Rekord),
            "rfc3161" => Some(EntryKind::Rfc3161),
            "rpm" => Some(EntryKind::Rpm),
            "tuf" => Some(EntryKind::Tuf),
            _ => None,
        }
    }
}
