//! The dimensions of an align target beside those of an alignee (HPF 2.0, 3.4).

ghost use Rattle.std.specs.Prelude.{◌≡◌, ◌∷◌, ◌++◌, ◌==◌, ◌&&◌, [], drop, filter, length, map, IfOk, OnOk, None};
ghost use Rattle.syntax_tree.specs.Directive.{source_of};
ghost use Rattle.alignment_rules.specs.AlignmentEntries.{at_place, dimension_of, first_colon, is_triplet, pair, pairs, pairs_from};
ghost use Rattle.alignment_rules.specs.AlignmentRules.{are_matched, is_colon};

use crate::alignment_values::{Pair, TargetValue};
use crate::sources::{colons, dimension, is_colon, next_unless};
use crate::target_parts::dim_from;
use expression_rules::Dim;
use hpf_base::Name;
use std::alloc::{AllocError, Global};
use syntax_tree::Source;

/// It is a triplet.
fn is_triplet(value: &TargetValue) -> bool
    ensures { result ≡ is_triplet value.now }
{
    matches!(value, TargetValue::Triplet(_, _, _))
}

/// The first of the dimensions whose entries are `:`.
fn first_colon(colons: &[usize]) -> usize
    ensures { result ≡ first_colon colons.now }
{
    match colons.split_first() {
        None => 0,
        Some((first, _)) => *first,
    }
}

/// The dimension whose entry is a dummy, if there is one.
fn dimension_of_name(sources: &[Source], name: Option<Name>) -> usize
    ensures { result ≡ dimension_of (map source_of sources.now) [] (TargetValue.Subscript name None) }
{
    match name {
        None => 0,
        Some(name) => dimension(&name, sources),
    }
}

/// The dimension of the alignee along which a subscript of the target moves, where these `:` are left.
#[tactic(auto, using(crate::proofs::PairTurns::same_dimension))]
fn dimension_of(sources: &[Source], colons: &[usize], value: &TargetValue) -> usize
    ensures { result ≡ dimension_of (map source_of sources.now) colons.now value.now }
{
    match *value {
        TargetValue::Subscript(name, _) => dimension_of_name(sources, name),
        TargetValue::Triplet(_, _, _) => first_colon(colons),
        TargetValue::Every => 0,
    }
}

/// The bounds of a dimension, where there is such a dimension and they are known.
#[tactic(auto, using(crate::proofs::PairTurns::place_is))]
pub(crate) fn dim_at(dims: &[Option<Dim>], place: usize) -> Option<Dim>
    ensures { result ≡ at_place dims.now place }
{
    dim_from(dims, place)
}

/// The number of a dimension. More dimensions than it can number are want of memory.
fn numbered(place: usize) -> Result<u32, AllocError>
    ensures { IfOk result (λ n. n ≡ place) }
{
    if place > u32::MAX as usize {
        return Err(AllocError);
    }
    Ok(place as u32)
}

/// A dimension of the target with the dimension of the alignee along which its subscript moves, where these `:` are left.
fn new_pair(
    sources: &[Source],
    dims: &[Option<Dim>],
    colons: &[usize],
    value: &TargetValue,
    bounds: Option<Dim>,
) -> Result<Pair, AllocError>
    ensures { IfOk result (λ p. p ≡ pair value.now bounds (dimension_of (map source_of sources.now) colons.now value.now)
        (at_place dims.now (dimension_of (map source_of sources.now) colons.now value.now))) }
{
    let place = dimension_of(sources, colons, value);
    let dim = numbered(place)?;
    Ok(Pair {
        value: *value,
        bounds,
        dim,
        along: dim_at(dims, place),
    })
}

/// One more.
fn push_pair(
    pairs: &mut Vec<Pair>,
    sources: &[Source],
    dims: &[Option<Dim>],
    colons: &[usize],
    value: &TargetValue,
    bounds: Option<Dim>,
) -> Result<(), AllocError>
    ensures { OnOk result (pairs.new.items ≡ pairs.old.items ++ pair value.now bounds (dimension_of (map source_of sources.now) colons.now value.now)
        (at_place dims.now (dimension_of (map source_of sources.now) colons.now value.now)) ∷ []) }
{
    let made = new_pair(sources, dims, colons, value, bounds)?;
    pairs.push(made)?;
    Ok(())
}

/// Those after the first ones.
fn after(colons: &[usize], done: usize) -> &[usize]
    ensures { result.now ≡ drop done colons.now }
{
    if done < colons.len() {
        &colons[done..]
    } else {
        &[]
    }
}

/// The dimensions of the target in order, where the entries of these dimensions are `:`.
fn pairs_by(
    alloc: Global,
    colons: &[usize],
    sources: &[Source],
    dims: &[Option<Dim>],
    values: &[TargetValue],
    bounds: &[Option<Dim>],
) -> Result<Vec<Pair>, AllocError>
    ensures { IfOk result (λ ps. ps.items ≡ pairs_from (map source_of sources.now) dims.now colons.now values.now bounds.now) }
{
    let mut pairs = Vec::new(alloc);
    let mut place = 0;
    let mut done = 0;
    for value in values {
        let left = after(colons, done);
        let dim = dim_from(bounds, place);
        push_pair(&mut pairs, sources, dims, left, value, dim)?;
        done = next_unless(!is_triplet(value), done);
        place += 1;
    }
    Ok(pairs)
}

/// The dimensions of the target, each with the dimension of the alignee along which its subscript moves: the n-th triplet goes with the n-th
/// `:`. An `Err` is want of memory.
pub(crate) fn pairs(
    alloc: Global,
    sources: &[Source],
    dims: &[Option<Dim>],
    values: &[TargetValue],
    bounds: &[Option<Dim>],
) -> Result<Vec<Pair>, AllocError>
    ensures { IfOk result (λ ps. ps.items ≡ pairs (map source_of sources.now) dims.now values.now bounds.now) }
{
    let colons = colons(alloc, sources)?;
    let pairs = pairs_by(alloc, &colons, sources, dims, values, bounds)?;
    Ok(pairs)
}

/// How many entries are `:`.
#[tactic(auto, using(crate::proofs::PairTurns::count_more))]
fn count_colons(sources: &[Source]) -> usize
    ensures { result ≡ length (filter is_colon (map source_of sources.now)) }
{
    let mut count = 0;
    for source in sources {
        count = next_unless(!is_colon(source), count);
    }
    count
}

/// How many subscripts are triplets.
#[tactic(auto, using(crate::proofs::PairTurns::count_more))]
fn count_triplets(values: &[TargetValue]) -> usize
    ensures { result ≡ length (filter is_triplet values.now) }
{
    let mut count = 0;
    for value in values {
        count = next_unless(!is_triplet(value), count);
    }
    count
}

/// There is an entry for each dimension of both, and as many `:` as triplets.
pub(crate) fn are_matched(
    sources: &[Source],
    dims: &[Option<Dim>],
    values: &[TargetValue],
    bounds: &[Option<Dim>],
) -> bool
    ensures { result ≡ are_matched (map source_of sources.now) dims.now values.now bounds.now }
{
    sources.len() == dims.len()
        && values.len() == bounds.len()
        && count_colons(sources) == count_triplets(values)
}
