//! Expressions of a nest over the slots: its indices, and other scalars that stand beside them in a list, are axes.

ghost use Rattle.std.specs.Prelude.{◌≡◌, IfOk};
ghost use Rattle.node_code.specs.Flat.{Operated};
ghost use Rattle.node_code.specs.Texts.{flat, flats_of};
ghost use Rattle.program_code.specs.ExpressionCode.{index_flat, index_flats};
ghost use Rattle.resolved_program.specs.Resolved.{term, terms_of};
ghost use Rattle.statement_trail.specs.NestParts.{index_in};
ghost use Rattle.statement_trail.specs.NestTerms.{all_indexed, indexed, scalar_or_index};

use hpf_base::OutOfMemory;
use node_code::Flat;
use op_tables::Op;
use resolved_program::Term;
use std::alloc::Global;

/// The place of a number in a list, from 0.
pub fn index_in(list: &[usize], k: usize) -> Option<usize>
    ensures { result ≡ index_in list.now 0 k }
{
    for i in 0..list.len() {
        if list[i] == k {
            return Some(i);
        }
    }
    None
}

/// A subscript, which names no element, over these axes, the innermost loop's first.
#[cycle(nest_flat)]
pub fn nest_flat(alloc: Global, axes: &[usize], t: &Term) -> Result<Flat, OutOfMemory>
    ensures { IfOk result (λ f. flat f ≡ index_flat (indexed (index_in axes.now 0) (term t.now))) }
{
    match t {
        Term::Number(n) => Ok(Flat::Int(*n)),
        Term::Scalar(k) => Ok(scalar_flat(axes, *k)),
        Term::Index(k) => Ok(Flat::Axis(*k)),
        Term::Apply(op, operands) => operated(alloc, axes, *op, operands),
        _ => Ok(Flat::Int(0)),
    }
}

/// What a scalar is.
fn scalar_flat(axes: &[usize], k: usize) -> Flat
    ensures { flat result ≡ index_flat (scalar_or_index (index_in axes.now 0 k) k) }
{
    match index_in(axes, k) {
        Some(j) => Flat::Axis(j),
        None => Flat::Slot(k),
    }
}

/// An operator in a subscript.
#[cycle(nest_flat)]
fn operated(alloc: Global, axes: &[usize], op: Op, operands: &[Term]) -> Result<Flat, OutOfMemory>
    ensures { IfOk result (λ f. flat f ≡ Operated op (index_flats (all_indexed (index_in axes.now 0) (terms_of operands.now)))) }
{
    Ok(Flat::Operated(op, nest_flats(alloc, axes, operands)?))
}

/// Subscripts in order.
#[cycle(nest_flat)]
fn nest_flats(alloc: Global, axes: &[usize], terms: &[Term]) -> Result<Vec<Flat>, OutOfMemory>
    ensures { IfOk result (λ fs. flats_of fs.items ≡ index_flats (all_indexed (index_in axes.now 0) (terms_of terms.now))) }
{
    let mut flats = Vec::new(alloc);
    for t in terms {
        flats.push(nest_flat(alloc, axes, t)?)?;
    }
    Ok(flats)
}
