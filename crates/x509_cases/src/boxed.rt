//! Boxed policies of a type of this program, which [`AllOf`] and [`AnyOf`] know only through the trait.

use crate::policy::listed;
use sig_cases::{Answer, Arguments};
use sig_x509::{AllOf, AnyOf, Certificate, LeafPolicy, PolicyResult, VerificationPolicy};
use std::alloc::Global;

/// A policy of this program: the one that it holds.
#[derive(Drop)]
struct Outside {
    policy: LeafPolicy,
}

impl VerificationPolicy for Outside {
    ghost holds = { λ p c. ⟦<LeafPolicy as VerificationPolicy>⟧.holds p.policy c };

    ghost refusal = { λ p c. ⟦<LeafPolicy as VerificationPolicy>⟧.refusal p.policy c };

    fn verify(&self, alloc: Global, cert: &Certificate) -> PolicyResult {
        self.policy.verify(alloc, cert)
    }
}

/// What all or any of the policies of a list, where `-` is the empty one, say over boxes.
pub(crate) fn verify(
    list: &str,
    is_all: bool,
    leaf: &Certificate,
    arguments: &mut Arguments<'_>,
    answer: &mut Answer,
) -> PolicyResult {
    let alloc = arguments.alloc();
    let mut children: Vec<Box<dyn VerificationPolicy>> = Vec::new(alloc);
    if list != "-" {
        for item in list.split(',') {
            let policy = listed(item, arguments, answer);
            if let Some(child) = boxed(alloc, answer, policy) {
                push(&mut children, child, answer);
            }
        }
    }
    if is_all {
        verify_all(alloc, children, leaf)
    } else {
        AnyOf::new(children).verify(alloc, leaf)
    }
}

/// The policy in a box. `None` if out of memory.
fn boxed(alloc: Global, answer: &mut Answer, policy: LeafPolicy) -> Option<Box<Outside>> {
    match Box::new(alloc, Outside { policy }) {
        Ok(child) => Some(child),
        Err(_) => {
            answer.out_of_memory();
            None
        }
    }
}

fn push(
    children: &mut Vec<Box<dyn VerificationPolicy>>,
    child: Box<dyn VerificationPolicy>,
    answer: &mut Answer,
) {
    if children.push(child).is_err() {
        answer.out_of_memory();
    }
}

/// What all of the children say: that they hold, if there are none: an empty [`AllOf`] cannot be made.
fn verify_all(
    alloc: Global,
    children: Vec<Box<dyn VerificationPolicy>>,
    leaf: &Certificate,
) -> PolicyResult {
    match AllOf::new(children) {
        Some(all) => all.verify(alloc, leaf),
        None => Ok(()),
    }
}
