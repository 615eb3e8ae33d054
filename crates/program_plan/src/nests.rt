//! Nests of INDEPENDENT loops (HPF 2.0, 5.1). An `Err` is want of memory here.

ghost use Rattle.std.specs.Prelude.{◌≡◌, ◌+◌, ℕ, map, nat_eq, not, IfOk};
ghost use Rattle.std.specs.List.{filter, list_any};
ghost use Rattle.syntax_tree.specs.Statement as syntax;
ghost use Rattle.array_meaning.specs.Statements.{Done, Then};
ghost use Rattle.array_meaning.specs.Resolution.{place_of, resolved, resolved_block, union};
ghost use Rattle.program_plan.specs.Nests.{IsNestOf, count_round, new_round, reduction_round};

use crate::named::place_of;
use hpf_base::{Name, OutOfMemory};
use name_table::Names;
use resolved_program::Nest;
use std::alloc::{AllocError, Global};
use syntax_tree::{DoLoop, Mark, StatementKind, Stmt};

/// The nest of which a loop is the outermost; None where it isn't INDEPENDENT.
#[cycle(nest)]
pub(crate) fn nest_of(
    alloc: Global,
    names: &Names,
    inner: &DoLoop,
) -> Result<Option<Nest>, OutOfMemory>
    ensures { IfOk result (λ n. (line : ℕ) → IsNestOf n (Then line (resolved names.now (syntax.do_construct inner.now)) Done)) }
{
    match &inner.mark {
        None => Ok(None),
        Some(mark) => {
            let within = nest_in(alloc, names, &inner.body)?;
            let nest = nest_round(alloc, names, mark, &within)?;
            Ok(Some(nest))
        }
    }
}

/// The nest of the loop that these statements are, if they are one.
#[cycle(nest)]
fn nest_in(alloc: Global, names: &Names, stmts: &[Stmt]) -> Result<Option<Nest>, OutOfMemory>
    ensures { IfOk result (λ n. IsNestOf n (resolved_block names.now (syntax.block_of stmts.now))) }
{
    if stmts.len() == 1 {
        nest_of_one(alloc, names, &stmts[0])
    } else {
        Ok(None)
    }
}

/// The nest of the loop that this statement is, if it is one.
#[cycle(nest)]
fn nest_of_one(alloc: Global, names: &Names, stmt: &Stmt) -> Result<Option<Nest>, OutOfMemory>
    ensures { IfOk result (λ n. IsNestOf n (Then stmt.now.line (resolved names.now (syntax.statement stmt.now.line stmt.now.what)) Done)) }
{
    match &stmt.what {
        StatementKind::Do(inner) => nest_of(alloc, names, inner),
        _ => Ok(None),
    }
}

/// The nest of an INDEPENDENT loop, by its mark and the nest that is its whole body, if there is one.
fn nest_round(
    alloc: Global,
    names: &Names,
    mark: &Mark,
    within: &Option<Nest>,
) -> Result<Nest, OutOfMemory>
    ensures line { IfOk result (λ n. n.line ≡ mark.now.line) }
    ensures count { IfOk result (λ n. n.inner_loops ≡ count_round within.now) }
    ensures new { IfOk result (λ n. n.new.items ≡ new_round (map (place_of names.now) mark.now.new) within.now) }
    ensures reduction { IfOk result (λ n. n.reduction.items ≡ reduction_round (map (place_of names.now) mark.now.reduction) within.now) }
{
    match within {
        None => one_loop(alloc, names, mark),
        Some(within) => loops_round(alloc, names, mark, within),
    }
}

/// The nest of an INDEPENDENT loop alone.
fn one_loop(alloc: Global, names: &Names, mark: &Mark) -> Result<Nest, OutOfMemory>
    ensures line { IfOk result (λ n. n.line ≡ mark.now.line) }
    ensures count { IfOk result (λ n. n.inner_loops ≡ 0) }
    ensures new { IfOk result (λ n. n.new.items ≡ map (place_of names.now) mark.now.new) }
    ensures reduction { IfOk result (λ n. n.reduction.items ≡ map (place_of names.now) mark.now.reduction) }
{
    let new = places(alloc, names, mark.new.as_slice())?;
    let reduction = places(alloc, names, mark.reduction.as_slice())?;
    Ok(Nest {
        line: mark.line,
        inner_loops: 0,
        new,
        reduction,
    })
}

/// The nest of an INDEPENDENT loop whose whole body is a nest.
fn loops_round(
    alloc: Global,
    names: &Names,
    mark: &Mark,
    within: &Nest,
) -> Result<Nest, OutOfMemory>
    ensures line { IfOk result (λ n. n.line ≡ mark.now.line) }
    ensures count { IfOk result (λ n. n.inner_loops ≡ within.now.inner_loops + 1) }
    ensures new { IfOk result (λ n. n.new.items ≡ union (map (place_of names.now) mark.now.new) within.now.new.items) }
    ensures reduction { IfOk result (λ n. n.reduction.items ≡ union (map (place_of names.now) mark.now.reduction) within.now.reduction.items) }
{
    let inner_loops = one_more(within.inner_loops)?;
    let new = places_with(alloc, names, mark.new.as_slice(), &within.new)?;
    let reduction = places_with(alloc, names, mark.reduction.as_slice(), &within.reduction)?;
    Ok(Nest {
        line: mark.line,
        inner_loops,
        new,
        reduction,
    })
}

/// The places of names and these others, each once.
fn places_with(
    alloc: Global,
    names: &Names,
    listed: &[Name],
    others: &[usize],
) -> Result<Vec<usize>, OutOfMemory>
    ensures { IfOk result (λ all. all.items ≡ union (map (place_of names.now) listed.now) others.now) }
{
    let own = places(alloc, names, listed)?;
    let all = union(alloc, own, others)?;
    Ok(all)
}

/// The places of names.
fn places(alloc: Global, names: &Names, listed: &[Name]) -> Result<Vec<usize>, OutOfMemory>
    ensures { IfOk result (λ ps. ps.items ≡ map (place_of names.now) listed.now) }
{
    let mut places = Vec::new(alloc);
    for name in listed {
        let place = place_of(names, name);
        places.push(place)?;
    }
    Ok(places)
}

/// One loop more. So many loops that it doesn't fit aren't in memory.
fn one_more(loops: usize) -> Result<usize, OutOfMemory>
    ensures { IfOk result (λ n. n ≡ loops + 1) }
{
    match loops.checked_add(1) {
        Some(n) => Ok(n),
        None => Err(OutOfMemory),
    }
}

/// The places of both lists, each once.
fn union(alloc: Global, mut places: Vec<usize>, others: &[usize]) -> Result<Vec<usize>, OutOfMemory>
    ensures { IfOk result (λ all. all.items ≡ union places.items others.now) }
{
    let fresh = not_among(alloc, others, &places)?;
    places.extend_from_slice(&fresh)?;
    Ok(places)
}

/// Those that don't stand in a list.
fn not_among(alloc: Global, others: &[usize], places: &[usize]) -> Result<Vec<usize>, AllocError>
    ensures { IfOk result (λ v. v.items ≡ filter (λ y. not (list_any (nat_eq y) places.now)) others.now) }
{
    others
        .iter()
        .copied()
        .filter(|other| !is_among(*other, places))
        .collect(alloc)
}

/// A place stands in a list.
fn is_among(place: usize, places: &[usize]) -> bool
    ensures { result ≡ list_any (nat_eq place) places.now }
{
    places.iter().any(|other| place == *other)
}
