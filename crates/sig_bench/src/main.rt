//! A program for `bench/run`: it makes one call of a lower crate over standard input, so that the call can be measured
//! by itself. The words:
//!
//! - `certificate N` reads a certificate N times, and prints how many extensions were read;
//! - `read` reads a JSON document, and prints 0;
//! - `compact` and `canonical` read one, write it so, and print how many bytes were written;
//! - `bundle` reads a bundle, and prints 0;
//! - `statement` reads a payload as a statement, `digests` as the checks of a bundle do, and both print how many
//!   digests were taken;
//! - `checks NOW` reads accepted signatures, a trusted root and bundles, verifies each of these at this time, and
//!   prints how many;
//! - `hash N` hashes N zero bytes, and prints the first byte of SHA-256; `artifact N` reads a bundle, verifies it of an
//!   artifact of N zero bytes, where nothing is trusted, and prints 0;
//! - `payload`, `signature` and `promise` read what `cosign` stores beside an image as the payload of a layer, as its
//!   signature, or as what a log promised of it, under a checker that accepts every signature, ask whether a key signed
//!   the layer, and print 0, or 1 if the input is refused; `attested DIGEST LOG` does so of the Sigstore bundle of an
//!   image, under a key of this log;
//! - `pool N` reads a leaf, N trust anchors and N intermediates, asks a pool for the leaf's issuer, where no signature
//!   is genuine, and prints how many questions its checker was asked;
//! - `walk N` and `recursion N` check a leaf of a tree of 2^63 leaves N times, and print how often it was accepted;
//!   `hashes N` and `inline N` make only the hashes of N such checks, and print N.
//!
//! It promises nothing.
#![tactic(auto)]

mod accepting;
mod artifact;
mod bundle;
mod certificate;
mod checks;
mod document;
mod layer;
mod merkle;
mod pool;
mod statement;

use anyhow::{Context, Result};
use std::alloc::Global;
use std::env;
use std::io::Read;

fn main(rt: HostRuntime) -> Result<()> {
    let alloc = rt.alloc();
    let mut words = env::args(&rt)?;
    let _ = words.next();
    let what = words.next().context("what to read")?;
    let (first, second) = (words.next(), words.next());
    let mut input = Vec::new(alloc);
    rt.stdin().read_to_end(&mut input)?;
    let (first, second) = (text(&first), text(&second));
    let count = count(alloc, what.as_str(), first, second, input.as_slice())?;
    println!(rt; "{count}")?;
    Ok(())
}

/// A word as it is borrowed.
fn text(word: &Option<String>) -> Option<&str> {
    match word {
        Some(word) => Some(word.as_str()),
        None => None,
    }
}

/// Makes the call of this name, with the words after it, over the input, and returns what it counts.
fn count(
    alloc: Global,
    what: &str,
    first: Option<&str>,
    second: Option<&str>,
    input: &[u8],
) -> Result<u64> {
    let count = match what {
        "certificate" => certificate::extensions_of(alloc, input, number(first)?),
        "read" => document::read(alloc, input),
        "compact" => document::written_compact(alloc, input),
        "canonical" => document::written_canonical(alloc, input),
        "bundle" => bundle::read(alloc, input),
        "statement" => statement::digests_of(alloc, input),
        "digests" => statement::digests_alone(alloc, input),
        "checks" => checks::verified(alloc, input, number(first)?),
        "hash" => Some(artifact::hashed(number(first)?)),
        "artifact" => artifact::verified(alloc, input, number(first)?),
        "payload" => layer::of_payload(alloc, input),
        "signature" => layer::of_signature(alloc, input),
        "promise" => layer::of_promise(alloc, input),
        "attested" => {
            let source = first.context("which image")?;
            let log = second.context("which log")?;
            layer::of_bundle(alloc, input, source, log)
        }
        "pool" => pool::questions(alloc, input, number(first)?),
        "walk" => merkle::walked(number(first)?),
        "recursion" => merkle::recursed(number(first)?),
        "hashes" => Some(merkle::hashed(number(first)?)),
        "inline" => Some(merkle::hashed_inline(number(first)?)),
        _ => None,
    };
    count.context("not read")
}

/// The number that a word of the command line is.
fn number(word: Option<&str>) -> Result<u64> {
    let word = word.context("how many")?;
    word.parse::<u64>().context("how many")
}
