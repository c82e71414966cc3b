//! `MemberPath`: where in a document a value is.
ghost use Rattle.std.specs.Prelude.{◌≡◌, ◌∷◌, [], OnOk, Some};
ghost use Rattle.std.specs.Fmt.{WritesOnOk};
ghost use Rattle.std.specs.List.{flat_map};
ghost use Rattle.sig_table.specs.PathText.{first_text, path_text, step_text};

use sig_base::{OutOfMemory, Text};
use std::alloc::Global;
use std::fmt;
use std::marker::Model;

/// A step into a value.
#[derive(Drop)]
pub enum Step {
    /// The member of this name of an object.
    Name(Text),
    /// The element at this index of a list, counted from 0.
    Index(usize),
}

/// The way from a document to a value in it, from outside. Contracts see the list of its steps.
#[derive(Drop)]
pub struct MemberPath {
    steps: Vec<Step>,
}

impl Model for MemberPath {
    ghost use Rattle.std.specs.Prelude.{List};
    ghost use Rattle.sig_table.specs.declared.path.Step.{Step};

    ghost Value = { List Step };

    ghost view = { λ p. p.steps.items };
}

impl MemberPath {
    /// The path of the document itself. It takes no memory.
    pub(crate) fn new(alloc: Global) -> MemberPath
        ensures { result ≡ [] }
    {
        MemberPath {
            steps: Vec::new(alloc),
        }
    }

    /// Puts a step before the others. Fails only if out of memory.
    pub(crate) fn put_in_front(&mut self, step: Step) -> Result<(), OutOfMemory>
        ensures { OnOk result (self.new ≡ step ∷ self.old) }
    {
        self.steps.insert(0, step)?;
        Ok(())
    }

    /// The steps from outside.
    pub fn steps(&self) -> &[Step]
        ensures { result.now ≡ self.now }
    {
        self.steps.as_slice()
    }
}

/// Shows a name after a point, or an index in brackets.
impl fmt::Display for Step {
    ghost output = { λ step. Some (step_text step) };

    fn fmt<W: fmt::Write>(&self, f: &mut fmt::Formatter<W>) -> fmt::Result {
        match self {
            Step::Name(name) => write!(f, ".{}", name.as_str()),
            Step::Index(index) => write!(f, "[{index}]"),
        }
    }
}

/// Shows the names with points between them, and the indices in brackets: `tlogEntries[0].inclusionProof.rootHash`. The
/// names are those of a table; the path of the document itself is a point.
impl fmt::Display for MemberPath {
    ghost output = { λ path. Some (path_text path) };

    fn fmt<W: fmt::Write>(&self, f: &mut fmt::Formatter<W>) -> fmt::Result {
        let Some((first, rest)) = self.steps.as_slice().split_first() else {
            return f.write_str(".");
        };
        write_first(f, first)?;
        write_steps(f, rest)
    }
}

/// The first step: its name needs no point.
fn write_first<W: fmt::Write>(f: &mut fmt::Formatter<W>, step: &Step) -> fmt::Result
    ensures { WritesOnOk W.write_str_gives f.old result (first_text step.now) f.new }
{
    match step {
        Step::Name(name) => f.write_str(name.as_str()),
        Step::Index(_) => write!(f, "{step}"),
    }
}

/// The steps after the first.
fn write_steps<W: fmt::Write>(f: &mut fmt::Formatter<W>, steps: &[Step]) -> fmt::Result
    ensures { WritesOnOk W.write_str_gives f.old result (flat_map step_text steps.now) f.new }
{
    for step in steps {
        write!(f, "{step}")?;
    }
    Ok(())
}
