//! Anchors whose subscripts are expressions, in which the indices of the space may stand. An `Err` is want of memory here.

ghost use Rattle.std.specs.Prelude.{◌≡◌, map, option_map, IfOk};
ghost use Rattle.array_meaning.specs.Terms.{list_of};
ghost use Rattle.node_code.specs.Texts.{anchor_sub, flat_anchor};
ghost use Rattle.program_code.specs.ExpressionCode.{anchor_code, anchor_sub_code};
ghost use Rattle.program_code.specs.StatementCode.{forall_beside};
ghost use Rattle.resolved_program.specs.Resolved.{element_assignment, terms_of};
ghost use Rattle.statement_trail.specs.Anchors.{AtTerm, element_anchor};

use expression_code::index_flat;
use hpf_base::OutOfMemory;
use node_code::{AnchorSub, FlatAnchor};
use resolved_program::{ElementAssignment, Term};
use std::alloc::Global;

/// What the copy of the mask of a FORALL with these assignments lies beside (Fortran 95, 7.5.4): the left side of the first one.
pub fn forall_beside(
    alloc: Global,
    body: &[ElementAssignment],
) -> Result<Option<FlatAnchor>, OutOfMemory>
    ensures { IfOk result (λ r. option_map flat_anchor r ≡ forall_beside (map element_assignment body.now)) }
{
    if body.len() == 0 {
        return Ok(None);
    }
    let a = left_anchor(alloc, &body[0])?;
    Ok(Some(a))
}

/// The left side of an assignment.
fn left_anchor(alloc: Global, x: &ElementAssignment) -> Result<FlatAnchor, OutOfMemory>
    ensures { IfOk result (λ a. flat_anchor a ≡ anchor_code (element_anchor x.now.array (terms_of x.now.subscripts.items))) }
{
    let subscripts = index_anchor_subs(alloc, &x.subscripts)?;
    Ok(FlatAnchor {
        array: x.array,
        subscripts,
    })
}

/// Subscripts in order.
fn index_anchor_subs(alloc: Global, terms: &[Term]) -> Result<Vec<AnchorSub>, OutOfMemory>
    ensures { IfOk result (λ v. map anchor_sub v.items ≡ map anchor_sub_code (map AtTerm (list_of (terms_of terms.now)))) }
{
    let mut made = Vec::new(alloc);
    for t in terms {
        made.push(AnchorSub::At(index_flat(alloc, t)?))?;
    }
    Ok(made)
}
