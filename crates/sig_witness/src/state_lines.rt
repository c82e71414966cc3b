//! `StateLines`: the five lines of an origin, as they are in a text.
ghost use Rattle.std.specs.Prelude.{◌≡◌, ◌<◌, ◌++◌, ◌∷◌, [], List, length, OnOk, option_map, IfSome, IfOk, IfErr};
ghost use Rattle.sig_base.specs.Answers.{OrMemory};
ghost use Rattle.sig_rekor.specs.TextCuts.{cut_at};
ghost use Rattle.sig_rekor.specs.NoteText.{newline};
ghost use Rattle.sig_witness.specs.StateCauses.{AreLinesOf};
ghost use Rattle.sig_witness.specs.StateCut.{lines_cut, lines_in};
ghost use Rattle.sig_witness.specs.StateText.{LogLines};

use crate::state_error::StateError;
use sig_base::OutOfMemory;
use std::alloc::Global;
use std::marker::Model;

/// The five lines of an origin. Contracts see the lines.
#[derive(Drop)]
pub struct StateLines<'a> {
    pub(crate) origin: &'a str,
    pub(crate) scheme: &'a str,
    pub(crate) key: &'a str,
    pub(crate) size: &'a str,
    pub(crate) hash: &'a str,
}

impl<'a> Model for StateLines<'a> {
    ghost use Rattle.sig_witness.specs.StateText.{LogLines};

    ghost Value = { LogLines };

    ghost view = { λ l. record {
      origin = l.origin.now;
      scheme = l.scheme.now;
      key = l.key.now;
      size = l.size.now;
      hash = l.hash.now;
    } };
}

/// Five lines, and what is after them.
#[derive(Drop)]
struct Cut<'a> {
    origin: &'a str,
    scheme: &'a str,
    key: &'a str,
    size: &'a str,
    hash: &'a str,
    rest: &'a str,
}

/// Returns the lines of a text in fives, each line ended by a newline. Fails with `Lines` if and only if the text is
/// not such lines, or with `OutOfMemory`.
#[tactic(auto, using(crate::proofs::StateLines::splitting))]
pub(crate) fn split_lines(alloc: Global, text: &str) -> Result<Vec<StateLines<'_>>, StateError>
    ensures ok { IfOk result (λ all. AreLinesOf text.now all.items) }
    ensures err { IfErr result (λ e. OrMemory StateError.OutOfMemory e
        ((e ≡ StateError.Lines) × ((all : List LogLines) → ¬ AreLinesOf text.now all))) }
{
    let mut all = Vec::new(alloc);
    let mut rest = text;
    'lines: while !rest.is_empty() {
        let Some(cut) = cut_lines(rest) else {
            return Err(StateError::Lines);
        };
        add_lines(&mut all, &cut)?;
        rest = cut.rest;
    }
    Ok(all)
}

/// Returns the first five lines and what is after them, or `None` if there are fewer.
fn cut_lines(text: &str) -> Option<Cut<'_>>
    ensures cut { option_map (λ cut. (lines_in cut, cut.rest.now)) result ≡ lines_cut text.now }
    ensures shorter { IfSome result (λ cut. length cut.rest.now < length text.now) }
{
    let (origin, rest) = cut_line(text)?;
    let (scheme, rest) = cut_line(rest)?;
    let (key, rest) = cut_line(rest)?;
    let (size, rest) = cut_line(rest)?;
    let (hash, rest) = cut_line(rest)?;
    Some(Cut {
        origin,
        scheme,
        key,
        size,
        hash,
        rest,
    })
}

/// Returns the first line and what is after its newline, or `None` if there is no newline.
fn cut_line(text: &str) -> Option<(&str, &str)>
    ensures cut { option_map (λ x. (x.0.now, x.1.now)) result ≡ cut_at newline text.now }
    ensures shorter { IfSome result (λ x. length x.1.now < length text.now) }
{
    text.split_once("\n")
}

/// Adds lines. Fails only if out of memory.
fn add_lines<'a>(all: &mut Vec<StateLines<'a>>, cut: &Cut<'a>) -> Result<(), OutOfMemory>
    ensures { OnOk result (all.new.items ≡ all.old.items ++ lines_in cut.now ∷ []) }
{
    all.push(StateLines {
        origin: cut.origin,
        scheme: cut.scheme,
        key: cut.key,
        size: cut.size,
        hash: cut.hash,
    })?;
    Ok(())
}
