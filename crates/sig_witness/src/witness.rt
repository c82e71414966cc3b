//! `Witness`: the tree heads of each log, each grown from the one before it.
ghost use Rattle.std.specs.Prelude.{◌≡◌, ◌↔◌, ◌==◌, [], ◌∷◌, length, IfOk, OnOk, OnErr, IfSome, IsNone, IsTrue, Some, None, Result};
ghost use Rattle.std.specs.List.{AllByRecursion, list_any};
ghost use Rattle.std.specs.Option.{option_copied, option_map};
ghost use Rattle.sig_audit.specs.Chained.{AreChained};
ghost use Rattle.sig_audit.specs.Fronts.{EndsInList, IsOfFront};
ghost use Rattle.sig_base.specs.Answers.{Answers, UnlessMemory};
ghost use Rattle.sig_base.specs.ByText.{text_lookup, text_put};
ghost use Rattle.sig_base.specs.Collision.{IsCollision};
ghost use Rattle.sig_merkle.specs.HashedText.{AreHashedTexts};
ghost use Rattle.sig_witness.specs.Answer.{update_answer};
ghost use Rattle.sig_witness.specs.Causes.{IsAddAnswer, IsUpdateAnswer};
ghost use Rattle.sig_witness.specs.KeptLogs.{AreKept, IsKeptLog, IsOriginText, chain_at, first_head, last_of, line_feed, log_key, new_log, size_and_root};
ghost use Rattle.sig_witness.specs.Updates.{grown_log, head_of, IsStep, update_of};
ghost use Rattle.sig_witness.specs.declared.error.WitnessError.{WitnessError as witness_error};
ghost use Rattle.sig_witness.specs.declared.kept_log.KeptLog.{KeptLog as Log};

use crate::error::WitnessError;
use crate::growth::{check, own_head};
use crate::kept_log::KeptLog;
use crate::logs::Logs;
use sig_audit::{Chain, ChainHead, chain_collision};
use sig_base::{Collision, Entries, Hashes, OutOfMemory, SignatureChecker};
use sig_key::CosignVerificationKey;
use sig_merkle::empty_root;
use sig_rekor::SignedCheckpoint;
use std::alloc::Global;
use std::marker::Model;

/// The key of each origin's log, and the tree heads that were taken, from the oldest to the latest. Contracts see the
/// list of its entries, each origin once, in byte order of the origins.
#[derive(Drop)]
pub struct Witness {
    pub(crate) logs: Logs,
}

impl Model for Witness {
    ghost use Rattle.std.specs.Prelude.{ℕ, List};
    ghost use Rattle.std.specs.List.{AllByRecursion, list_any};
    ghost use Rattle.sig_witness.specs.declared.kept_log.KeptLog.{KeptLog};
    ghost use Rattle.sig_witness.specs.KeptLogs.{IsKeptLog};

    ghost Value = { List (List ℕ × KeptLog) };

    ghost view = { λ w. w.logs };

    ghost invariant = { λ w. AllByRecursion IsKeptLog w.logs };
}

impl Witness {
    /// Returns a witness without origins. It takes no memory.
    pub fn new(alloc: Global) -> Witness
        ensures { result ≡ [] }
    {
        Witness {
            logs: Logs::new(alloc),
        }
    }

    /// How many origins there are.
    pub fn len(&self) -> usize
        ensures count { result ≡ length self.now }
        ensures kept { AreKept self.now }
    {
        self.logs.len()
    }

    /// The size and the root hash of the kept head of an origin, or `None` if and only if the origin is not there.
    pub fn head(&self, origin: &str) -> Option<(u64, [u8; 32])>
        ensures head { result ≡ option_map size_and_root (last_of (chain_at origin.now self.now)) }
        ensures none { IsNone result ↔ (text_lookup origin.now self.now ≡ None) }
    {
        let Some(log) = self.logs.get(origin) else {
            return None;
        };
        Some(last_head(log.chain.as_slice()))
    }

    /// The key of an origin's log, or `None` if and only if the origin is not there.
    pub fn key(&self, origin: &str) -> Option<&CosignVerificationKey>
        ensures { option_copied result ≡ option_map log_key (text_lookup origin.now self.now) }
    {
        match self.logs.get(origin) {
            Some(log) => Some(&log.key),
            None => None,
        }
    }

    /// Adds an origin with the key of its log. The kept head is that of the tree without leaves, whose root is SHA-256
    /// of nothing (RFC 6962 section 2.1). After an error nothing has changed.
    ///
    /// Errors, the first that applies:
    /// - `OriginText`: the origin is empty or holds a newline;
    /// - `OriginKnown`: the origin is there already;
    /// - `OutOfMemory`.
    pub fn add_origin(
        &mut self,
        origin: &str,
        key: CosignVerificationKey,
    ) -> Result<(), WitnessError>
        ensures found { UnlessMemory WitnessError.OutOfMemory result (IsAddAnswer self.old origin.now result) }
        ensures only { (answer : Result (Unit {0}) witness_error) → IsAddAnswer self.old origin.now answer
            → Answers WitnessError.OutOfMemory (λ x. x) result answer }
        ensures ok { OnOk result (self.new ≡ text_put origin.now (new_log key) self.old) }
        ensures err { OnErr result (self.new ≡ self.old) }
    {
        if !is_origin_text(origin) {
            return Err(WitnessError::OriginText);
        }
        if self.logs.get(origin).is_some() {
            return Err(WitnessError::OriginKnown);
        }
        let chain = first_chain(self.logs.allocator())?;
        self.logs.insert(origin, KeptLog { key, chain })?;
        Ok(())
    }

    /// Takes a checkpoint as the latest head of its origin. `old_size` is the size of the kept head, and `hashes` the
    /// consistency proof from it (RFC 6962 section 2.1.2). After an error nothing has changed.
    ///
    /// Errors, the first that applies:
    /// - `UnknownOrigin`: the checkpoint's origin is not there;
    /// - `NoteKey`: the checker accepts none of the signatures under the origin's key;
    /// - `OldSize`, with the size of the kept head: `old_size` is another;
    /// - `Consistency`: the hashes are not a consistency proof from the kept head, with the error of
    ///   [`sig_merkle::verify_consistency`];
    /// - `Full`: 4,096 heads are kept of the origin;
    /// - `OutOfMemory`.
    #[tactic(auto, using(crate::proofs::UpdateAnswers::update_answers))]
    pub fn update<C: SignatureChecker>(
        &mut self,
        alloc: Global,
        checkpoint: &SignedCheckpoint,
        old_size: u64,
        hashes: &[[u8; 32]],
        checker: &C,
    ) -> Result<(), WitnessError>
        ensures found { UnlessMemory WitnessError.OutOfMemory result (IsUpdateAnswer (C.spki_accepts checker.now)
            self.old (update_of checkpoint.now old_size hashes.now) result) }
        ensures only { (answer : Result (Unit {0}) witness_error)
            → IsUpdateAnswer (C.spki_accepts checker.now) self.old (update_of checkpoint.now old_size hashes.now) answer
            → Answers WitnessError.OutOfMemory (λ x. x) result answer }
        ensures step { UnlessMemory WitnessError.OutOfMemory result (IsStep (C.spki_accepts checker.now)
            self.old (update_of checkpoint.now old_size hashes.now) self.new) }
        ensures err { OnErr result (self.new ≡ self.old) }
    {
        self.take(alloc, checkpoint, old_size, hashes, checker)
    }

    /// The same by the equation of its result.
    fn take<C: SignatureChecker>(
        &mut self,
        alloc: Global,
        checkpoint: &SignedCheckpoint,
        old_size: u64,
        hashes: &[[u8; 32]],
        checker: &C,
    ) -> Result<(), WitnessError>
        ensures answer { Answers WitnessError.OutOfMemory (λ x. x) result (update_answer (C.spki_accepts checker.now)
            self.old (update_of checkpoint.now old_size hashes.now)) }
        ensures ok { (log : Log) → text_lookup checkpoint.now.note.origin self.old ≡ Some log
            → OnOk result (self.new ≡ text_put checkpoint.now.note.origin
            (grown_log log (head_of checkpoint.now hashes.now))
            self.old) }
        ensures err { OnErr result (self.new ≡ self.old) }
        ensures kept { AllByRecursion IsKeptLog self.old }
    {
        let origin = checkpoint.note.origin.as_str();
        let Some(log) = self.logs.get(origin) else {
            return Err(WitnessError::UnknownOrigin);
        };
        check(alloc, log, checkpoint, old_size, hashes, checker)?;
        let head = own_head(alloc, checkpoint, hashes)?;
        Ok(self.logs.grow(origin, head)?)
    }

    /// Returns two different byte strings of equal SHA-256 that the heads of an origin and their proofs exhibit, if the
    /// hash of one of the heads is not the root of the list's first entries, whose number is its size; `None` if and
    /// only if each is. The origin is there, and its kept head has the size and the root of the list. Fails only if out
    /// of memory.
    pub fn witness_collision(
        &self,
        alloc: Global,
        origin: &str,
        entries: &Entries,
    ) -> Result<Option<Collision>, OutOfMemory>
        requires { EndsInList entries.now (chain_at origin.now self.now) }
        ensures none { IfOk result (λ found. IsNone found
            ↔ AllByRecursion (IsOfFront entries.now) (chain_at origin.now self.now)) }
        ensures some { IfOk result (λ found. IfSome found (λ c. IsCollision c.left c.right)) }
        ensures texts { IfOk result (λ found. IfSome found (λ c. AreHashedTexts c.left c.right)) }
    {
        match self.logs.get(origin) {
            Some(log) => chain_collision(alloc, &log.chain, entries),
            None => unreachable!(),
        }
    }
}

/// The size and the root hash of the last of these heads.
fn last_head(heads: &[ChainHead]) -> (u64, [u8; 32])
    requires { AreChained heads.now }
    ensures { Some result ≡ option_map size_and_root (last_of heads.now) }
{
    let Some(last) = heads.last() else {
        unreachable!()
    };
    (last.size, last.hash)
}

/// Whether an origin is a line that is not empty.
fn is_origin_text(origin: &str) -> bool
    ensures { IsTrue result ↔ IsOriginText origin.now }
{
    if origin.is_empty() {
        return false;
    }
    !has_newline(origin)
}

/// Whether a text has a newline.
fn has_newline(text: &str) -> bool
    ensures { result ≡ list_any (λ b. b == line_feed) text.now }
{
    text.as_bytes().contains(&b'\n')
}

/// The heads of an origin that was just added.
fn first_chain(alloc: Global) -> Result<Chain, OutOfMemory>
    ensures { IfOk result (λ chain. chain ≡ first_head ∷ []) }
{
    let mut chain = Chain::new(alloc);
    chain.push(ChainHead {
        size: 0,
        hash: empty_root(),
        hashes: Hashes::new(alloc),
    })?;
    Ok(chain)
}
