//! The values of an array expression over a space of one or two dimensions, part by part: no tuple is formed, and nothing is divided.

ghost use Rattle.std.specs.Prelude.{◌≡◌, ◌≤◌, ◌+◌, ◌*◌, pos, ◌∷◌, [], IfOk, IfSome, Ok};
ghost use Rattle.array_meaning.specs.declared.limits.TheConstants.{MAX_TUPLES};
ghost use Rattle.array_meaning.specs.Elementals.{NoOperand, Operand, Operation, Same, Selected, values_over};
ghost use Rattle.array_meaning.specs.declared.sections.Selection.TheVariants.{Along};
ghost use Rattle.term_values.specs.States.{state_of};
ghost use Rattle.term_values.specs.Views.{elemental, elementals_of};

use crate::array_values::Elemental;
use crate::elements::{element_of_one, element_of_two, operated_of_two};
use crate::state::State;
use crate::subscripts::nth;
use crate::wrapping::Number;
use array_meaning::{MAX_TUPLES, Selection, Sequence};
use op_tables::Op;
use std::alloc::AllocError;

/// The values over a space of these extents, at most as many as a space may have. None where a part of the expression isn't of one of
/// the forms that are known here, and where a value is a fault.
#[cycle(column)]
pub(crate) fn column(
    s: &State,
    ns: &[u128],
    x: &Elemental,
    n: usize,
) -> Result<Option<Vec<i64>>, AllocError>
    requires few { n ≤ MAX_TUPLES }
    ensures { IfOk result (λ p. IfSome p (λ vs. values_over (state_of s.now) ns.now (elemental x.now) n ≡ Ok vs.items)) }
{
    match x {
        Elemental::Same(v) => same_column(s, ns, v, n),
        Elemental::Selected(a, ds) => selected_column(s, ns, *a, ds, n),
        Elemental::Operation(op, xs) => operation_column(s, ns, *op, xs, n),
    }
}

/// The same value at each tuple.
#[tactic(auto, using(crate::proofs::LinesAndPlanes::one_same))]
fn same_column(s: &State, ns: &[u128], v: &i64, n: usize) -> Result<Option<Vec<i64>>, AllocError>
    ensures { IfOk result (λ p. IfSome p (λ vs. values_over (state_of s.now) ns.now (Same v.now) n ≡ Ok vs.items)) }
{
    let mut vs = Vec::with_capacity(*s.scalars.allocator(), n)?;
    for t in 0..n {
        vs.push(*v)?;
    }
    Ok(Some(vs))
}

/// The elements of a section of an array of one or two dimensions, all of whose subscripts are triplets.
fn selected_column(
    s: &State,
    ns: &[u128],
    a: usize,
    ds: &[Selection],
    n: usize,
) -> Result<Option<Vec<i64>>, AllocError>
    requires few { n ≤ MAX_TUPLES }
    ensures { IfOk result (λ p. IfSome p (λ vs. values_over (state_of s.now) ns.now (Selected a ds.now) n ≡ Ok vs.items)) }
{
    if let [Selection::Along(p)] = ds {
        return line(s, ns, a, p, n);
    }
    if let [Selection::Along(p), Selection::Along(q)] = ds {
        return plane(s, ns, a, p, q, n);
    }
    Ok(None)
}

/// Those of one dimension.
fn line(
    s: &State,
    ns: &[u128],
    a: usize,
    p: &Sequence,
    n: usize,
) -> Result<Option<Vec<i64>>, AllocError>
    requires few { n ≤ MAX_TUPLES }
    ensures { IfOk result (λ r. IfSome r (λ vs. values_over (state_of s.now) ns.now (Selected a (Along p.now ∷ [])) n ≡ Ok vs.items)) }
{
    if ns.len() != 1 {
        return Ok(None);
    }
    if ns[0] != n as u128 {
        return Ok(None);
    }
    elements_along(s, a, p, n)
}

/// Those of two dimensions.
fn plane(
    s: &State,
    ns: &[u128],
    a: usize,
    p: &Sequence,
    q: &Sequence,
    n: usize,
) -> Result<Option<Vec<i64>>, AllocError>
    requires few { n ≤ MAX_TUPLES }
    ensures { IfOk result (λ r. IfSome r (λ vs. values_over (state_of s.now) ns.now (Selected a (Along p.now ∷ Along q.now ∷ [])) n ≡ Ok vs.items)) }
{
    if let [first, second] = ns {
        if *first <= MAX_TUPLES as u128
            && *second <= MAX_TUPLES as u128
            && *second * *first == n as u128
        {
            return elements_over_plane(s, a, p, q, *first as usize, *second as usize);
        }
    }
    Ok(None)
}

/// The elements of an array of two dimensions whose subscripts are these; the first ones are the fastest.
#[tactic(auto, using(crate::proofs::LinesAndPlanes::one_of_plane))]
fn elements_over_plane(
    s: &State,
    a: usize,
    p: &Sequence,
    q: &Sequence,
    first: usize,
    second: usize,
) -> Result<Option<Vec<i64>>, AllocError>
    requires first { first ≤ MAX_TUPLES }
    requires second { second ≤ MAX_TUPLES }
    ensures { IfOk result (λ r. IfSome r (λ vs. values_over (state_of s.now) (first ∷ second ∷ []) (Selected a (Along p.now ∷ Along q.now ∷ [])) (second * first) ≡ Ok vs.items)) }
{
    let mut vs = Vec::new(*s.scalars.allocator());
    for y in 0..second {
        let w = position(y);
        let j = nth(q, &w.value);
        for x in 0..first {
            let u = position(x);
            let i = nth(p, &u.value);
            match element_of_two(s, a, &i.value, &j.value) {
                Ok(v) => vs.push(v)?,
                Err(_) => return Ok(None),
            }
        }
    }
    Ok(Some(vs))
}

/// The elements of an array of one dimension whose subscripts are these.
#[tactic(auto, using(crate::proofs::LinesAndPlanes::one_selected))]
fn elements_along(
    s: &State,
    a: usize,
    p: &Sequence,
    n: usize,
) -> Result<Option<Vec<i64>>, AllocError>
    requires few { n ≤ MAX_TUPLES }
    ensures { IfOk result (λ r. IfSome r (λ vs. values_over (state_of s.now) (n ∷ []) (Selected a (Along p.now ∷ [])) n ≡ Ok vs.items)) }
{
    let mut vs = Vec::with_capacity(*s.scalars.allocator(), n)?;
    for t in 0..n {
        let x = position(t);
        let i = nth(p, &x.value);
        match element_of_one(s, a, &i.value) {
            Ok(v) => vs.push(v)?,
            Err(_) => return Ok(None),
        }
    }
    Ok(Some(vs))
}

/// The position of a place, which are counted from 1 and from 0.
fn position(place: usize) -> Number
    requires { place ≤ MAX_TUPLES }
    ensures { result.value ≡ pos (place + 1) }
{
    Number {
        value: place as i64 + 1,
    }
}

/// The values of an operator of two operands.
#[cycle(column)]
fn operation_column(
    s: &State,
    ns: &[u128],
    op: Op,
    xs: &Vec<Elemental>,
    n: usize,
) -> Result<Option<Vec<i64>>, AllocError>
    requires few { n ≤ MAX_TUPLES }
    ensures { IfOk result (λ p. IfSome p (λ vs. values_over (state_of s.now) ns.now (Operation op (elementals_of xs.now.items)) n ≡ Ok vs.items)) }
{
    if xs.len() != 2 {
        return Ok(None);
    }
    let Some(first) = column(s, ns, &xs[0], n)? else {
        return Ok(None);
    };
    let Some(second) = column(s, ns, &xs[1], n)? else {
        return Ok(None);
    };
    operated_columns(s, ns, op, &xs[0], &xs[1], &first, &second, n)
}

/// The values of an operator of two operands, of which these are the values.
#[tactic(auto, using(crate::proofs::LinesAndPlanes::one_operated))]
fn operated_columns(
    s: &State,
    ns: &[u128],
    op: Op,
    x: &Elemental,
    y: &Elemental,
    first: &[i64],
    second: &[i64],
    n: usize,
) -> Result<Option<Vec<i64>>, AllocError>
    requires first { values_over (state_of s.now) ns.now (elemental x.now) n ≡ Ok first.now }
    requires second { values_over (state_of s.now) ns.now (elemental y.now) n ≡ Ok second.now }
    ensures { IfOk result (λ p. IfSome p (λ vs. values_over (state_of s.now) ns.now (Operation op (Operand (elemental x.now) (Operand (elemental y.now) NoOperand))) n ≡ Ok vs.items)) }
{
    if first.len() != n || second.len() != n {
        return Ok(None);
    }
    let mut vs = Vec::with_capacity(*s.scalars.allocator(), n)?;
    for t in 0..n {
        match operated_of_two(op, &first[t], &second[t]) {
            Ok(v) => vs.push(v)?,
            Err(_) => return Ok(None),
        }
    }
    Ok(Some(vs))
}
