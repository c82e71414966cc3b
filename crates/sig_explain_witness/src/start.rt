//! The witness that a request starts from, or why there is no witness.
//!
//! ```text
//! {"cause":["State","Lines"],"link":"request"}
//! {"cause":["Origin"],"index":"1","link":"request"}
//! ```
ghost use Rattle.std.specs.Prelude.{◌≡◌, IfOk};
ghost use Rattle.sig_json.specs.Writing.{members, members_into};
ghost use Rattle.sig_explain_witness.specs.Start.{AreAddedOr, IsStartAnswer, no_start_rows, no_start_tree, state_name};
ghost use Rattle.sig_json.specs.Tree.{document_tree};

use sig_base::OutOfMemory;
use sig_explanation::{with_cause, with_inner_cause};
use sig_json::{Document, Object};
use sig_shown::with_count;
use sig_witness::{StateError, Witness};
use sig_witness_command::request::{OriginKey, WitnessRequest};
use sig_witness_command::start::add_one;
use std::alloc::Global;

/// Why a request has no witness to start from.
#[derive(Clone, Copy)]
pub enum NoStart {
    /// Its state is not that of a witness.
    State(StateError),
    /// The origin at this index, the first such, cannot be added.
    Origin(usize),
}

/// Returns the witness of a request's state, to which each origin was added in order; or why there is no witness. Fails
/// only if out of memory.
pub(crate) fn read_start(
    alloc: Global,
    request: &WitnessRequest,
) -> Result<Result<Witness, NoStart>, OutOfMemory>
    ensures { IfOk result (IsStartAnswer request.now) }
{
    let mut witness = match Witness::decode(alloc, request.state.as_str()) {
        Ok(witness) => witness,
        Err(StateError::OutOfMemory) => return Err(OutOfMemory),
        Err(error) => return Ok(Err(NoStart::State(error))),
    };
    if let Some(place) = add_all(alloc, &mut witness, request.origins.as_slice())? {
        drop(witness);
        return Ok(Err(NoStart::Origin(place)));
    }
    Ok(Ok(witness))
}

/// Adds origins one after another; returns the index of the first that cannot be added, if there is one. Fails only if
/// out of memory.
#[tactic(auto, using(crate::proofs::Starts::adding))]
fn add_all(
    alloc: Global,
    witness: &mut Witness,
    origins: &[OriginKey],
) -> Result<Option<usize>, OutOfMemory>
    ensures { IfOk result (AreAddedOr witness.old origins.now witness.new) }
{
    'origins: for (place, one) in origins.iter().enumerate() {
        if !add_one(alloc, witness, one)? {
            return Ok(Some(place));
        }
    }
    Ok(None)
}

/// The refusal of a request without a witness to start from: its state, or the index of an origin. Fails only if out of
/// memory.
#[tactic(auto, unfolding(crate::specs::Start::no_start_tree))]
pub(crate) fn no_start_document(alloc: Global, why: &NoStart) -> Result<Document, OutOfMemory>
    ensures { IfOk result (λ document. document_tree document ≡ no_start_tree why.now) }
{
    let object = Object::new(alloc).with_text(alloc, "link", "request")?;
    let object = with_no_start(object, alloc, why)?;
    Ok(object.into_document())
}

/// The object with why there is no witness.
fn with_no_start(object: Object, alloc: Global, why: &NoStart) -> Result<Object, OutOfMemory>
    ensures { IfOk result (λ made. members made ≡ members_into (members object) (no_start_rows why.now)) }
{
    match why {
        NoStart::State(error) => with_inner_cause(object, alloc, "State", state_name(error)),
        NoStart::Origin(place) => {
            let object = with_cause(object, alloc, "Origin")?;
            with_count(object, alloc, "index", *place as u64)
        }
    }
}

/// The name of why a text is not the state of a witness.
fn state_name(error: &StateError) -> &'static str
    ensures { result.now ≡ state_name error.now }
{
    match error {
        StateError::Lines => "Lines",
        StateError::Origin => "Origin",
        StateError::Scheme => "Scheme",
        StateError::Key => "Key",
        StateError::Size => "Size",
        StateError::Hash => "Hash",
        StateError::Root => "Root",
        StateError::OutOfMemory => "OutOfMemory",
    }
}
