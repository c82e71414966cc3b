//! The walks of sig_merkle over bits, beside the recursions.
ghost use Rattle.std.specs.Prelude.{◌≡◌, ◌<◌};

use sig_base::{Steps, sha256};
use sig_cases::{Answer, Arguments};
use sig_merkle::recursion::{fold_path, fold_roots, growth_len, proof_len};
use sig_merkle::{decomp_inclusion_proof, root_from_inclusion_proof, verify_consistency};
use std::alloc::{AllocError, Global};
use std::marker::Brand;
use std::sync::ledger::{Blank, Ledger};

/// The hash of the leaf of each made-up path, and the old root of each made-up consistency proof.
const LEAF: [u8; 32] = [255; 32];

/// `decomposed INDEX SIZE`: how many hashes of the path are inner ones, and how many are of the right border.
pub(crate) fn decomposed(arguments: &mut Arguments<'_>, answer: &mut Answer) {
    let index = arguments.natural();
    let size = arguments.natural();
    if index >= size {
        return arguments.refuse();
    }
    let (inner, border) = decomp_inclusion_proof(index, size);
    answer.ok();
    answer.value(&inner);
    answer.value(&border);
}

/// `both_ways SIZE FIRST COUNT`: the digests of the roots of made-up paths for COUNT indices of a tree of this size.
pub(crate) fn both_ways(arguments: &mut Arguments<'_>, answer: &mut Answer) {
    let sweep = Sweep::read(arguments);
    let mut roots = Roots::new(arguments.alloc());
    if push_paths::<Brand>(&mut roots, Blank::new(1), &sweep).is_err() {
        answer.out_of_memory();
    }
    answer.ok();
    answer.hex(&sha256(&roots.walked));
    answer.hex(&sha256(&roots.recursed));
}

/// Made-up proofs in a tree of this size, from an index or an older size up to another.
#[derive(Clone, Copy)]
struct Sweep {
    size: u64,
    from: u64,
    to: u64,
    hashes: [[u8; 32]; 65],
}

impl Sweep {
    /// Reads `SIZE FIRST COUNT`.
    fn read(arguments: &mut Arguments<'_>) -> Sweep {
        let size = arguments.natural();
        let from = arguments.natural();
        let to = from.saturating_add(arguments.natural());
        if to > size {
            arguments.refuse();
        }
        let hashes = made_up_hashes();
        Sweep {
            size,
            from,
            to,
            hashes,
        }
    }
}

/// As many hashes as the longest proof has, each of one byte: its index.
fn made_up_hashes() -> [[u8; 32]; 65] {
    let mut hashes = [[0; 32]; 65];
    for place in 0..65u8 {
        hashes[place as usize] = [place; 32];
    }
    hashes
}

/// The roots that made-up proofs lead to, one after another: by the walk, and by the recursion.
#[derive(Drop)]
struct Roots {
    walked: Vec<u8>,
    recursed: Vec<u8>,
}

impl Roots {
    fn new(alloc: Global) -> Roots {
        Roots {
            walked: Vec::new(alloc),
            recursed: Vec::new(alloc),
        }
    }
}

/// Adds the roots of all indices, on a ledger.
fn push_paths<L: Ledger>(roots: &mut Roots, blank: Blank, sweep: &Sweep) -> Result<(), AllocError>
    requires name { blank.name ≡ L.name }
    requires parts { blank.parts ≡ L.parts }
    requires some { 0 < blank.parts }
{
    let mut steps = Steps::<L>::new(blank);
    for index in sweep.from..sweep.to {
        push_path(roots, &mut steps, sweep, index)?;
    }
    Ok(())
}

/// Adds the roots of the index. The walk's is missing if it is refused.
fn push_path<L: Ledger>(
    roots: &mut Roots,
    steps: &mut Steps<L>,
    sweep: &Sweep,
    index: u64,
) -> Result<(), AllocError> {
    let size = sweep.size;
    if index >= size {
        return Ok(());
    }
    let path = &sweep.hashes[..proof_len(index, size) as usize];
    if let Ok(root) = root_from_inclusion_proof(index, &LEAF, size, path, steps) {
        roots.walked.extend_from_slice(&root)?;
    }
    let root = fold_path(index, &LEAF, size, path, steps);
    roots.recursed.extend_from_slice(&root)
}

/// `both_growths SIZE FIRST COUNT`: the digest of the roots of made-up consistency proofs from COUNT older trees to a
/// tree of this size.
pub(crate) fn both_growths(arguments: &mut Arguments<'_>, answer: &mut Answer) {
    let sweep = Sweep::read(arguments);
    let mut roots = Vec::new(arguments.alloc());
    if push_growths::<Brand>(&mut roots, Blank::new(1), &sweep).is_err() {
        answer.out_of_memory();
    }
    answer.ok();
    answer.hex(&sha256(&roots));
}

/// Adds the roots of all older sizes by the recursion, on a ledger.
fn push_growths<L: Ledger>(
    roots: &mut Vec<u8>,
    blank: Blank,
    sweep: &Sweep,
) -> Result<(), AllocError>
    requires name { blank.name ≡ L.name }
    requires parts { blank.parts ≡ L.parts }
    requires some { 0 < blank.parts }
{
    let mut steps = Steps::<L>::new(blank);
    for old_size in sweep.from..sweep.to {
        push_growth(roots, &mut steps, sweep, old_size)?;
    }
    Ok(())
}

/// Adds both roots for the older size. They are missing if the walk does not accept them.
fn push_growth<L: Ledger>(
    roots: &mut Vec<u8>,
    steps: &mut Steps<L>,
    sweep: &Sweep,
    old_size: u64,
) -> Result<(), AllocError> {
    let size = sweep.size;
    if old_size == 0 || old_size >= size {
        return Ok(());
    }
    let proof = &sweep.hashes[..growth_len(old_size, size, true) as usize];
    let led = fold_roots(old_size, size, true, &LEAF, proof, steps);
    if verify_consistency(old_size, size, proof, &led.old, &led.new, steps).is_ok() {
        roots.extend_from_slice(&led.old)?;
        roots.extend_from_slice(&led.new)?;
    }
    Ok(())
}
