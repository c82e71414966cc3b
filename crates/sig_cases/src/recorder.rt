//! A checker that keeps what it is asked.

use crate::answer::Answer;
use sig_base::{SignatureChecker, TableChecker, VerifyScheme};
use std::alloc::{AllocError, Global};
use std::cell::{Cell, RefCell};

/// A question that a checker was asked, without its message.
#[derive(Drop)]
struct Question {
    key: Vec<u8>,
    signature: Vec<u8>,
}

/// A table of accepted rows that keeps the questions that it is asked, in their order.
#[derive(Drop)]
pub struct Recorder {
    alloc: Global,
    table: TableChecker,
    asked: RefCell<Vec<Question>>,
    is_full: Cell<bool>,
}

impl Recorder {
    /// Returns the table, which was not asked anything yet.
    pub fn new(alloc: Global, table: TableChecker) -> Recorder {
        Recorder {
            alloc,
            table,
            asked: RefCell::new(Vec::new(alloc)),
            is_full: Cell::new(false),
        }
    }

    /// Adds the word `asked`, and how many questions there were.
    pub fn count_in(&self, answer: &mut Answer) {
        self.begin(answer);
        if let Ok(asked) = self.asked.try_borrow() {
            answer.value(&asked.len());
        }
    }

    /// Adds the word `asked`, and ends the program if a question was not kept.
    fn begin(&self, answer: &mut Answer) {
        answer.value(&"asked");
        if self.is_full.get() {
            answer.out_of_memory();
        }
    }

    /// Adds the word `asked`, and the key of each question.
    pub fn keys_in(&self, answer: &mut Answer) {
        self.begin(answer);
        if let Ok(asked) = self.asked.try_borrow() {
            for question in asked.as_slice() {
                answer.hex(&question.key);
            }
        }
    }

    /// Adds the word `asked`, and the signature of each question.
    pub fn signatures_in(&self, answer: &mut Answer) {
        self.begin(answer);
        if let Ok(asked) = self.asked.try_borrow() {
            for question in asked.as_slice() {
                answer.hex(&question.signature);
            }
        }
    }
}

impl SignatureChecker for Recorder {
    ghost use Rattle.sig_base.specs.Checker.{accepted};
    ghost use Rattle.sig_base.specs.Scheme.{name_of};
    ghost use Rattle.sig_base.specs.declared.checker.Operation.TheVariants.{Message, Prehash, Point, Certificate};
    ghost use Rattle.std.specs.Prelude.{[]};

    ghost spki_accepts = { λ recorder scheme spki message signature. accepted recorder.table Message
        (name_of scheme) spki message signature };

    ghost prehash_accepts = { λ recorder scheme spki digest signature. accepted recorder.table Prehash
        (name_of scheme) spki digest signature };

    ghost point_accepts = { λ recorder point message signature. accepted recorder.table Point [] point message
        signature };

    ghost cert_accepts = { λ recorder issuer algorithm tbs signature. accepted recorder.table Certificate algorithm
        issuer tbs signature };

    fn verify_spki(
        &self,
        scheme: VerifyScheme,
        spki: &[u8],
        message: &[u8],
        signature: &[u8],
    ) -> bool {
        self.keep(spki, signature);
        self.table.verify_spki(scheme, spki, message, signature)
    }

    fn verify_spki_prehash(
        &self,
        scheme: VerifyScheme,
        spki: &[u8],
        digest: &[u8],
        signature: &[u8],
    ) -> bool {
        self.keep(spki, signature);
        self.table
            .verify_spki_prehash(scheme, spki, digest, signature)
    }

    fn verify_p256_point(&self, point: &[u8], message: &[u8], signature: &[u8]) -> bool {
        self.keep(point, signature);
        self.table.verify_p256_point(point, message, signature)
    }

    fn verify_cert_signature(
        &self,
        issuer_spki: &[u8],
        algorithm: &[u8],
        tbs: &[u8],
        signature: &[u8],
    ) -> bool {
        self.keep(issuer_spki, signature);
        self.table
            .verify_cert_signature(issuer_spki, algorithm, tbs, signature)
    }
}

impl Recorder {
    /// Keeps a question. It also records if there is no memory for it.
    fn keep(&self, key: &[u8], signature: &[u8]) {
        let kept = match (
            question_of(self.alloc, key, signature),
            self.asked.try_borrow_mut(),
        ) {
            (Ok(question), Ok(mut asked)) => asked.push(question).is_ok(),
            _ => false,
        };
        if !kept {
            self.is_full.set(true);
        }
    }
}

fn question_of(alloc: Global, key: &[u8], signature: &[u8]) -> Result<Question, AllocError> {
    Ok(Question {
        key: Vec::from_slice(alloc, key)?,
        signature: Vec::from_slice(alloc, signature)?,
    })
}
