//! Authorities and instances of logs that take memory of their own only where they have a member. A trusted root of
//! 2^24 bytes can have millions without one, each of which takes the room of two pointers here.
ghost use Rattle.std.specs.Prelude.{◌≡◌, IfOk, option_map};
ghost use Rattle.sig_root.specs.Sparse.{whole_authority, whole_instance};

use crate::record::{CertificateAuthority, PublicKey, TimeRange, TransparencyLogInstance};
use sig_base::{Bytes, Entries, OutOfMemory};
use std::alloc::Global;
use std::marker::Model;

/// An instance of a log. Contracts see the instance.
#[derive(Drop)]
pub struct SparseInstance {
    held: Option<BoxedInstance>,
}

impl Model for SparseInstance {
    ghost use Rattle.sig_root.specs.Sparse.{whole_instance};
    ghost use Rattle.sig_root.specs.declared.record.TransparencyLogInstance.{TransparencyLogInstance};

    ghost Value = { TransparencyLogInstance };

    ghost view = { λ s. whole_instance s.held };
}

impl SparseInstance {
    /// The instance of these members. Fails only if out of memory.
    pub(crate) fn of(
        alloc: Global,
        public_key: Option<PublicKey>,
        log_id: Option<Bytes>,
    ) -> Result<SparseInstance, OutOfMemory>
        ensures { IfOk result (λ sparse. sparse ≡ record { public_key = public_key; log_id = log_id }) }
    {
        if public_key.is_none() && log_id.is_none() {
            return Ok(SparseInstance { held: None });
        }
        let instance = TransparencyLogInstance { public_key, log_id };
        Ok(SparseInstance {
            held: Some(BoxedInstance {
                held: Box::new(alloc, instance)?,
            }),
        })
    }

    /// Returns the instance, or `None` if every member of it is absent.
    pub fn get(&self) -> Option<&TransparencyLogInstance>
        ensures { whole_instance (option_map (λ instance. instance.now) result) ≡ self.now }
    {
        match &self.held {
            Some(instance) => Some(instance.get()),
            None => None,
        }
    }
}

/// An instance in memory of its own. Contracts see the instance.
#[derive(Drop)]
struct BoxedInstance {
    held: Box<TransparencyLogInstance>,
}

impl Model for BoxedInstance {
    ghost use Rattle.sig_root.specs.declared.record.TransparencyLogInstance.{TransparencyLogInstance};

    ghost Value = { TransparencyLogInstance };

    ghost view = { λ b. b.held.value };
}

impl BoxedInstance {
    fn get(&self) -> &TransparencyLogInstance
        ensures { result.now ≡ self.now }
    {
        &self.held
    }
}

/// An authority that issues certificates. Contracts see the authority.
#[derive(Drop)]
pub struct SparseAuthority {
    held: Option<BoxedAuthority>,
}

impl Model for SparseAuthority {
    ghost use Rattle.sig_root.specs.Sparse.{whole_authority};
    ghost use Rattle.sig_root.specs.declared.record.CertificateAuthority.{CertificateAuthority};

    ghost Value = { CertificateAuthority };

    ghost view = { λ s. whole_authority s.held };
}

impl SparseAuthority {
    /// The authority of these members. Fails only if out of memory.
    pub(crate) fn of(
        alloc: Global,
        cert_chain: Option<Entries>,
        valid_for: Option<TimeRange>,
    ) -> Result<SparseAuthority, OutOfMemory>
        ensures { IfOk result (λ sparse. sparse ≡ record { cert_chain = cert_chain; valid_for = valid_for }) }
    {
        if cert_chain.is_none() && valid_for.is_none() {
            return Ok(SparseAuthority { held: None });
        }
        let authority = CertificateAuthority {
            cert_chain,
            valid_for,
        };
        Ok(SparseAuthority {
            held: Some(BoxedAuthority {
                held: Box::new(alloc, authority)?,
            }),
        })
    }

    /// Returns the authority, or `None` if every member of it is absent.
    pub fn get(&self) -> Option<&CertificateAuthority>
        ensures { whole_authority (option_map (λ authority. authority.now) result) ≡ self.now }
    {
        match &self.held {
            Some(authority) => Some(authority.get()),
            None => None,
        }
    }
}

/// An authority in memory of its own. Contracts see the authority.
#[derive(Drop)]
struct BoxedAuthority {
    held: Box<CertificateAuthority>,
}

impl Model for BoxedAuthority {
    ghost use Rattle.sig_root.specs.declared.record.CertificateAuthority.{CertificateAuthority};

    ghost Value = { CertificateAuthority };

    ghost view = { λ b. b.held.value };
}

impl BoxedAuthority {
    fn get(&self) -> &CertificateAuthority
        ensures { result.now ≡ self.now }
    {
        &self.held
    }
}
