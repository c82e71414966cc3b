//! The policies of Fulcio's extensions: https://github.com/sigstore/fulcio/blob/main/docs/oid-info.md.

ghost use Rattle.std.specs.Prelude.{codes};
ghost use Rattle.sig_der.specs.ObjectIdentifiers.{fulcio};

use crate::single::SingleX509ExtPolicy;
use sig_base::{OutOfMemory, Text};
use sig_der::oid;
use std::alloc::Global;

/// The issuer of the token that the certificate was issued for, 1.3.6.1.4.1.57264.1.1.
#[derive(Debug, Drop)]
pub struct OIDCIssuer(pub Text);

/// The trigger of the GitHub workflow, 1.3.6.1.4.1.57264.1.2.
#[derive(Debug, Drop)]
pub struct GitHubWorkflowTrigger(pub Text);

/// The commit that the GitHub workflow ran at, 1.3.6.1.4.1.57264.1.3.
#[derive(Debug, Drop)]
pub struct GitHubWorkflowSHA(pub Text);

/// The name of the GitHub workflow, 1.3.6.1.4.1.57264.1.4.
#[derive(Debug, Drop)]
pub struct GitHubWorkflowName(pub Text);

/// The repository of the GitHub workflow, 1.3.6.1.4.1.57264.1.5.
#[derive(Debug, Drop)]
pub struct GitHubWorkflowRepository(pub Text);

/// The ref that the GitHub workflow ran at, 1.3.6.1.4.1.57264.1.6.
#[derive(Debug, Drop)]
pub struct GitHubWorkflowRef(pub Text);

impl SingleX509ExtPolicy for OIDCIssuer {
    ghost title = { codes "OIDCIssuer" };

    ghost identifier = { fulcio 1 };

    ghost asked = { λ p. p.0 };

    fn new(alloc: Global, val: &str) -> Result<OIDCIssuer, OutOfMemory> {
        Ok(OIDCIssuer(Text::copy_of(alloc, val)?))
    }

    fn name() -> &'static str {
        "OIDCIssuer"
    }

    fn value(&self) -> &str {
        self.0.as_str()
    }

    fn oid() -> &'static [u8] {
        oid::FULCIO_ISSUER
    }
}

impl SingleX509ExtPolicy for GitHubWorkflowTrigger {
    ghost title = { codes "GitHubWorkflowTrigger" };

    ghost identifier = { fulcio 2 };

    ghost asked = { λ p. p.0 };

    fn new(alloc: Global, val: &str) -> Result<GitHubWorkflowTrigger, OutOfMemory> {
        Ok(GitHubWorkflowTrigger(Text::copy_of(alloc, val)?))
    }

    fn name() -> &'static str {
        "GitHubWorkflowTrigger"
    }

    fn value(&self) -> &str {
        self.0.as_str()
    }

    fn oid() -> &'static [u8] {
        oid::FULCIO_TRIGGER
    }
}

impl SingleX509ExtPolicy for GitHubWorkflowSHA {
    ghost title = { codes "GitHubWorkflowSHA" };

    ghost identifier = { fulcio 3 };

    ghost asked = { λ p. p.0 };

    fn new(alloc: Global, val: &str) -> Result<GitHubWorkflowSHA, OutOfMemory> {
        Ok(GitHubWorkflowSHA(Text::copy_of(alloc, val)?))
    }

    fn name() -> &'static str {
        "GitHubWorkflowSHA"
    }

    fn value(&self) -> &str {
        self.0.as_str()
    }

    fn oid() -> &'static [u8] {
        oid::FULCIO_SHA
    }
}

impl SingleX509ExtPolicy for GitHubWorkflowName {
    ghost title = { codes "GitHubWorkflowName" };

    ghost identifier = { fulcio 4 };

    ghost asked = { λ p. p.0 };

    fn new(alloc: Global, val: &str) -> Result<GitHubWorkflowName, OutOfMemory> {
        Ok(GitHubWorkflowName(Text::copy_of(alloc, val)?))
    }

    fn name() -> &'static str {
        "GitHubWorkflowName"
    }

    fn value(&self) -> &str {
        self.0.as_str()
    }

    fn oid() -> &'static [u8] {
        oid::FULCIO_NAME
    }
}

impl SingleX509ExtPolicy for GitHubWorkflowRepository {
    ghost title = { codes "GitHubWorkflowRepository" };

    ghost identifier = { fulcio 5 };

    ghost asked = { λ p. p.0 };

    fn new(alloc: Global, val: &str) -> Result<GitHubWorkflowRepository, OutOfMemory> {
        Ok(GitHubWorkflowRepository(Text::copy_of(alloc, val)?))
    }

    fn name() -> &'static str {
        "GitHubWorkflowRepository"
    }

    fn value(&self) -> &str {
        self.0.as_str()
    }

    fn oid() -> &'static [u8] {
        oid::FULCIO_REPOSITORY
    }
}

impl SingleX509ExtPolicy for GitHubWorkflowRef {
    ghost title = { codes "GitHubWorkflowRef" };

    ghost identifier = { fulcio 6 };

    ghost asked = { λ p. p.0 };

    fn new(alloc: Global, val: &str) -> Result<GitHubWorkflowRef, OutOfMemory> {
        Ok(GitHubWorkflowRef(Text::copy_of(alloc, val)?))
    }

    fn name() -> &'static str {
        "GitHubWorkflowRef"
    }

    fn value(&self) -> &str {
        self.0.as_str()
    }

    fn oid() -> &'static [u8] {
        oid::FULCIO_REF
    }
}
