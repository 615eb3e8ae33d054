//! The subscripts of all elements that a FORALL names.

ghost use Rattle.std.specs.Prelude.{◌≡◌, ◌++◌, IfOk, OnOk, map, option_map};
ghost use Rattle.array_meaning.specs.Terms.{list_of};
ghost use Rattle.array_meaning.specs.Forall.{all_subscripts, body_subscripts, mask_subscripts, subscripts_in, subscripts_in_all};
ghost use Rattle.node_code.specs.Texts.{flat};
ghost use Rattle.resolved_program.specs.Resolved.{element_assignment, term, terms_of};
ghost use Rattle.program_code.specs.ExpressionCode.{index_flat};

use expression_code::all_index_flats;
use hpf_base::OutOfMemory;
use node_code::Flat;
use resolved_program::{ElementAssignment, Term};
use std::alloc::Global;

/// Those of the mask and of all assignments.
pub(crate) fn all_subscripts(
    alloc: Global,
    mask: &Option<Term>,
    body: &[ElementAssignment],
) -> Result<Vec<Flat>, OutOfMemory>
    ensures { IfOk result (λ fs. map flat fs.items ≡ map index_flat (all_subscripts (option_map term mask.now) (map element_assignment body.now))) }
{
    let mut found = Vec::new(alloc);
    add_mask(alloc, &mut found, mask)?;
    add_body(alloc, &mut found, body)?;
    Ok(found)
}

/// Puts those of the mask after others.
fn add_mask(alloc: Global, found: &mut Vec<Flat>, mask: &Option<Term>) -> Result<(), OutOfMemory>
    ensures { OnOk result (map flat found.new.items ≡ map flat found.old.items ++ map index_flat (mask_subscripts (option_map term mask.now))) }
{
    match mask {
        None => Ok(()),
        Some(t) => add_subscripts(alloc, t, found),
    }
}

/// Puts those of the assignments.
fn add_body(
    alloc: Global,
    found: &mut Vec<Flat>,
    body: &[ElementAssignment],
) -> Result<(), OutOfMemory>
    ensures { OnOk result (map flat found.new.items ≡ map flat found.old.items ++ map index_flat (body_subscripts (map element_assignment body.now))) }
{
    for x in body {
        add_assignment(alloc, found, x)?;
    }
    Ok(())
}

/// Puts those of an assignment, the left side first.
fn add_assignment(
    alloc: Global,
    found: &mut Vec<Flat>,
    x: &ElementAssignment,
) -> Result<(), OutOfMemory>
    ensures { OnOk result (map flat found.new.items
        ≡ map flat found.old.items ++ map index_flat (list_of (terms_of x.now.subscripts.items) ++ subscripts_in (term x.now.right))) }
{
    add_elements(alloc, found, &x.subscripts)?;
    add_subscripts(alloc, &x.right, found)
}

/// Puts those of an expression. It comes first, since its depth is the measure.
#[cycle(subscripts)]
fn add_subscripts(alloc: Global, t: &Term, found: &mut Vec<Flat>) -> Result<(), OutOfMemory>
    ensures { OnOk result (map flat found.new.items ≡ map flat found.old.items ++ map index_flat (subscripts_in (term t.now))) }
{
    match t {
        Term::Element(_, subscripts) => add_elements(alloc, found, subscripts),
        Term::Apply(_, operands) => add_all_subscripts(alloc, operands, found),
        _ => Ok(()),
    }
}

/// Puts those of several expressions.
#[cycle(subscripts)]
fn add_all_subscripts(
    alloc: Global,
    terms: &[Term],
    found: &mut Vec<Flat>,
) -> Result<(), OutOfMemory>
    ensures { OnOk result (map flat found.new.items ≡ map flat found.old.items ++ map index_flat (subscripts_in_all (terms_of terms.now))) }
{
    for t in terms {
        add_subscripts(alloc, t, found)?;
    }
    Ok(())
}

/// Puts the subscripts of an element.
fn add_elements(
    alloc: Global,
    found: &mut Vec<Flat>,
    subscripts: &[Term],
) -> Result<(), OutOfMemory>
    ensures { OnOk result (map flat found.new.items ≡ map flat found.old.items ++ map index_flat (list_of (terms_of subscripts.now))) }
{
    put_all(found, all_index_flats(alloc, subscripts)?)
}

/// Puts subscripts after others.
fn put_all(subscripts: &mut Vec<Flat>, more: Vec<Flat>) -> Result<(), OutOfMemory>
    ensures { OnOk result (subscripts.new.items ≡ subscripts.old.items ++ more.items) }
{
    for f in more {
        subscripts.push(f)?;
    }
    Ok(())
}
