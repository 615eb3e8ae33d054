//! Anchors whose subscripts are expressions or triplets. An `Err` is want of memory here.

ghost use Rattle.std.specs.Prelude.{◌≡◌, ◌++◌, map, option_map, IfOk};
ghost use Rattle.node_code.specs.Texts.{anchor_sub, flat_anchor};
ghost use Rattle.program_code.specs.ExpressionCode.{anchor_code, anchor_sub_code};
ghost use Rattle.program_code.specs.StatementCode.{where_beside};
ghost use Rattle.resolved_program.specs.Resolved.{section_assignment, subscripts_of};
ghost use Rattle.statement_trail.specs.Anchors.{section_anchor, section_terms};
ghost use Rattle.anchor_code.specs.Subscripts.{subscript_term};

use crate::foreknown::are_all_foreknown;
use expression_code::index_flat;
use hpf_base::OutOfMemory;
use node_code::{AnchorSub, FlatAnchor};
use resolved_program::{SectionAssignment, SectionSubscript};
use std::alloc::Global;

/// What the copy of the mask of a WHERE with these assignments, the second ones after ELSEWHERE, lies beside (Fortran 95, 7.5.3): the
/// left side of the first one, if its subscripts are known before the mask is evaluated.
pub fn where_beside(
    alloc: Global,
    body: &[SectionAssignment],
    others: &[SectionAssignment],
) -> Result<Option<FlatAnchor>, OutOfMemory>
    ensures { IfOk result (λ r. option_map flat_anchor r ≡ where_beside (map section_assignment body.now ++ map section_assignment others.now)) }
{
    if body.len() > 0 {
        return left_anchor(alloc, &body[0]);
    }
    if others.len() > 0 {
        return left_anchor(alloc, &others[0]);
    }
    Ok(None)
}

/// The left side of an assignment, if its subscripts are known before.
fn left_anchor(alloc: Global, x: &SectionAssignment) -> Result<Option<FlatAnchor>, OutOfMemory>
    ensures { IfOk result (λ r. option_map flat_anchor r ≡ option_map anchor_code (section_anchor x.now.array (subscripts_of x.now.subscripts.items))) }
{
    if !are_all_foreknown(&x.subscripts) {
        return Ok(None);
    }
    let subscripts = section_anchor_subs(alloc, &x.subscripts)?;
    Ok(Some(FlatAnchor {
        array: x.array,
        subscripts,
    }))
}

/// Subscripts in order.
fn section_anchor_subs(
    alloc: Global,
    subscripts: &[SectionSubscript],
) -> Result<Vec<AnchorSub>, OutOfMemory>
    ensures { IfOk result (λ v. map anchor_sub v.items ≡ map anchor_sub_code (section_terms (subscripts_of subscripts.now))) }
{
    let mut made = Vec::new(alloc);
    for d in subscripts {
        made.push(section_anchor_sub(alloc, d)?)?;
    }
    Ok(made)
}

/// One of them.
fn section_anchor_sub(alloc: Global, d: &SectionSubscript) -> Result<AnchorSub, OutOfMemory>
    ensures { IfOk result (λ r. anchor_sub r ≡ anchor_sub_code (subscript_term d.now)) }
{
    match d {
        SectionSubscript::Subscript(t) => Ok(AnchorSub::At(index_flat(alloc, t)?)),
        SectionSubscript::Triplet(first, _, stride) => {
            let first = index_flat(alloc, first)?;
            let stride = index_flat(alloc, stride)?;
            Ok(AnchorSub::Along(first, stride))
        }
    }
}
