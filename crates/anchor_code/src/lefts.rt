//! The first element that a block of a nest assigns, outside the loops in it.

ghost use Rattle.std.specs.Prelude.{◌≡◌, ℕ, Option, map, option_map, IfOk};
ghost use Rattle.std.specs.Option.{option_or};
ghost use Rattle.array_meaning.specs.Terms.{list_of};
ghost use Rattle.node_code.specs.Texts.{anchor_sub, flat_anchor};
ghost use Rattle.program_code.specs.ExpressionCode.{anchor_code, anchor_sub_code};
ghost use Rattle.resolved_program.specs.Resolved.{arms_of, block_of, statement, terms_of};
ghost use Rattle.statement_trail.specs.Anchors.{AtTerm, arms_anchor, block_anchor, element_anchor, statement_anchor};
ghost use Rattle.statement_trail.specs.NestParts.{index_in};
ghost use Rattle.statement_trail.specs.NestTerms.{all_indexed};
ghost use Rattle.anchor_code.specs.Lefts.{anchor_from};

use crate::axes::nest_flat;
use hpf_base::OutOfMemory;
use node_code::{AnchorSub, FlatAnchor};
use resolved_program::{Action, Arm, Statement, Term};
use std::alloc::Global;

/// What the copies of a nest with these indices, the innermost loop's first, lie beside (HPF 2.0, 5.1): the left side of the first
/// assignment of an element in its innermost block, outside the loops in it.
pub fn nest_beside(
    alloc: Global,
    indices: &[usize],
    body: &[Statement],
) -> Result<Option<FlatAnchor>, OutOfMemory>
    ensures { IfOk result (λ r. option_map flat_anchor r ≡ option_map anchor_code (block_anchor (index_in indices.now 0) (block_of body.now))) }
{
    match block_left(body) {
        None => Ok(None),
        Some(x) => {
            let a = left_anchor(alloc, indices, x.array, x.subscripts)?;
            Ok(Some(a))
        }
    }
}

/// A left side, over these indices.
fn left_anchor(
    alloc: Global,
    indices: &[usize],
    array: usize,
    subscripts: &Vec<Term>,
) -> Result<FlatAnchor, OutOfMemory>
    ensures { IfOk result (λ a. flat_anchor a ≡ anchor_code (element_anchor array (all_indexed (index_in indices.now 0) (terms_of subscripts.now.items)))) }
{
    let subscripts = nest_anchor_subs(alloc, indices, subscripts)?;
    Ok(FlatAnchor { array, subscripts })
}

/// Subscripts in order.
fn nest_anchor_subs(
    alloc: Global,
    indices: &[usize],
    terms: &[Term],
) -> Result<Vec<AnchorSub>, OutOfMemory>
    ensures { IfOk result (λ v. map anchor_sub v.items ≡ map anchor_sub_code (map AtTerm (list_of (all_indexed (index_in indices.now 0) (terms_of terms.now))))) }
{
    let mut made = Vec::new(alloc);
    for t in terms {
        made.push(AnchorSub::At(nest_flat(alloc, indices, t)?))?;
    }
    Ok(made)
}

// ---- the first left side

/// An element that is assigned.
#[derive(Clone, Copy)]
pub(crate) struct Left<'a> {
    pub array: usize,
    pub subscripts: &'a Vec<Term>,
}

/// The first one in a block.
#[cycle(block_left)]
fn block_left<'a>(statements: &'a [Statement]) -> Option<Left<'a>>
    ensures { (index : ℕ → Option ℕ) → block_anchor index (block_of statements.now) ≡ anchor_from index result }
{
    for s in statements {
        let first = statement_left(&s.what);
        if first.is_some() {
            return first;
        }
    }
    None
}

/// That of a statement.
#[cycle(block_left)]
fn statement_left<'a>(s: &'a Action) -> Option<Left<'a>>
    ensures { (index : ℕ → Option ℕ) → statement_anchor index (statement s.now) ≡ anchor_from index result }
{
    match s {
        Action::AssignElement(a, subscripts, _) => Some(Left {
            array: *a,
            subscripts,
        }),
        Action::If(arms, other) => earlier(arms_left(arms), block_left(other)),
        _ => None,
    }
}

/// That of the arms of an IF.
#[cycle(block_left)]
fn arms_left<'a>(arms: &'a [Arm]) -> Option<Left<'a>>
    ensures { (index : ℕ → Option ℕ) → arms_anchor index (arms_of arms.now) ≡ anchor_from index result }
{
    for a in arms {
        let first = block_left(&a.body);
        if first.is_some() {
            return first;
        }
    }
    None
}

/// The first of two, or the other one.
fn earlier<'a>(first: Option<Left<'a>>, other: Option<Left<'a>>) -> Option<Left<'a>>
    ensures { (index : ℕ → Option ℕ) → anchor_from index result ≡ option_or (anchor_from index first.entry) (anchor_from index other.entry) }
{
    match first {
        Some(x) => Some(x),
        None => other,
    }
}
