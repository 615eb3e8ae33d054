//! The first clash of the iterations of a nest (HPF 2.0, 5.1).

ghost use Rattle.std.specs.Prelude.{◌≡◌, ◌≤◌, ◌<◌, ◌^◌, [], IfOk, IfSome, None, OnOk, map, option_map};
ghost use Rattle.array_meaning.specs.declared.limits.TheConstants.{MAX_TUPLES};
ghost use Rattle.array_meaning.specs.Clashes.{first_clash};
ghost use Rattle.array_meaning.specs.State.{scalar};
ghost use Rattle.nest_clash.specs.Scan.{better};
ghost use Rattle.nest_clash.specs.Visits.{Met};
ghost use Rattle.resolved_program.specs.Resolved.{block_of};
ghost use Rattle.term_values.specs.States.{state_of};
ghost use Rattle.interference.specs.AllVisits.{visits_after, walk_with};
ghost use Rattle.interference.specs.Clashes.{clash};
ghost use Rattle.interference.specs.IterationSpaces.{at_number, iterations_in, touches_at};
ghost use Rattle.interference.specs.Scans.{in_places, in_rows};
ghost use Rattle.visited_objects.specs.Visits.{visit, visits_of};
ghost use Rattle.interference.specs.Walks.{walk_of, walked};

use crate::assigned::add_assigned;
use crate::indices::{IterationSpace, kept, set_back, set_iteration};
use crate::limits::tuples;
use crate::touches::note_block;
use crate::walk::Walk;
use nest_clash::scans_find;
use resolved_program::{Nest, Statement};
use std::alloc::{AllocError, Global};
use term_values::State;
use visited_objects::{Visit, Visits};

/// Two iterations that interfere, by their numbers from 0, and the object that both access.
#[derive(Clone, Copy)]
pub(crate) struct Clash {
    pub earlier: usize,
    pub later: usize,
    pub name: usize,
    pub place: usize,
}

/// The first clash of all iterations: the earlier one counts first, then the later one, and then the object, in the order of names and of
/// elements. None where no two interfere. The state is left as it was. An `Err` is want of memory.
pub(crate) fn first_clash(
    alloc: Global,
    s: &mut State,
    nest: &Nest,
    space: &IterationSpace,
    innermost: &Vec<Statement>,
) -> Result<Option<Clash>, AllocError>
    requires few { iterations_in space.now ≤ MAX_TUPLES }
    ensures clash { IfOk result (λ c. option_map clash c ≡ first_clash (touches_at nest.now space.now (block_of innermost.now.items) (state_of s.old)) (iterations_in space.now)) }
    ensures small { IfOk result (λ c. IfSome c (λ c. c.place < 2 ^ 62)) }
    ensures unchanged { state_of s.new ≡ state_of s.old }
{
    scans_find();
    let w = walk_all(alloc, s, nest, space, innermost)?;
    Ok(first_met(&w.visits))
}

// ---- iterations

/// The walk of all iterations, in order.
fn walk_all(
    alloc: Global,
    s: &mut State,
    nest: &Nest,
    space: &IterationSpace,
    innermost: &Vec<Statement>,
) -> Result<Walk, AllocError>
    requires few { iterations_in space.now ≤ MAX_TUPLES }
    ensures visits { IfOk result (λ w. visits_of w.visits ≡ visits_after (touches_at nest.now space.now (block_of innermost.now.items) (state_of s.old)) (iterations_in space.now)) }
    ensures unchanged { state_of s.new ≡ state_of s.old }
{
    let indices = kept(alloc, s, &space.indices)?;
    let mut w = first_walk(alloc, nest, space, innermost)?;
    let n = iterations_in(space);
    for i in 0..n {
        w.iteration = i;
        note_iteration(s, &mut w, space, &indices, innermost)?;
    }
    Ok(w)
}

/// How many iterations there are.
fn iterations_in(space: &IterationSpace) -> u32
    requires few { iterations_in space.now ≤ MAX_TUPLES }
    ensures { result ≡ iterations_in space.now }
{
    tuples(&space.axes) as u32
}

/// The walk before all iterations.
fn first_walk(
    alloc: Global,
    nest: &Nest,
    space: &IterationSpace,
    innermost: &Vec<Statement>,
) -> Result<Walk, AllocError>
    ensures { IfOk result (λ w. walk_of w ≡ walk_with nest.now space.now (block_of innermost.now.items) (visits_of [])) }
{
    let mut assigned = Vec::new(alloc);
    add_assigned(&mut assigned, innermost)?;
    let mut own = Vec::new(alloc);
    own.extend_from_slice(&nest.new)?;
    own.extend_from_slice(&nest.reduction)?;
    own.extend_from_slice(&space.indices)?;
    Ok(Walk {
        iteration: 0,
        assigned,
        inner: Vec::new(alloc),
        own,
        visits: Visits::new(alloc),
    })
}

/// Notes what the iteration of the walk touches. Outside the nest its indices have these values, and have them again afterwards.
fn note_iteration(
    s: &mut State,
    w: &mut Walk,
    space: &IterationSpace,
    indices: &[i64],
    innermost: &Vec<Statement>,
) -> Result<(), AllocError>
    requires kept { indices.now ≡ map (scalar (state_of s.old)) space.now.indices.items }
    ensures noted { OnOk result (walk_of w.new ≡ walked (walk_of w.old) (at_number space.now (state_of s.old) w.old.iteration) (block_of innermost.now.items)) }
    ensures unchanged { state_of s.new ≡ state_of s.old }
{
    set_iteration(s, space, w.iteration as usize);
    let done = note_block(s, w, innermost);
    set_back(s, &space.indices, indices);
    done
}

// ---- the scan

/// The first clash by how all objects were visited, which go in the order of names and then of places. It takes no memory.
fn first_met(visits: &Visits) -> Option<Clash>
    ensures first { option_map clash result ≡ in_rows 0 visits.now None }
    ensures small { IfSome result (λ c. c.place < 2 ^ 62) }
{
    let rows = visits.rows();
    let mut best = None;
    for name in 0..rows.len() {
        best = first_in_row(best, name, rows[name].visits());
    }
    best
}

/// The first clash so far, with those in the objects of a name.
fn first_in_row(best: Option<Clash>, name: usize, row: &[Visit]) -> Option<Clash>
    requires { IfSome best (λ c. c.place < 2 ^ 62) }
    ensures first { option_map clash result ≡ in_places name 0 row.now (option_map clash best) }
    ensures small { IfSome result (λ c. c.place < 2 ^ 62) }
{
    let mut first = best;
    for place in 0..row.len() {
        first = better(first, name, place, row[place]);
    }
    first
}

/// The first clash so far, with that in one object.
fn better(best: Option<Clash>, name: usize, place: usize, v: Visit) -> Option<Clash>
    requires best { IfSome best (λ c. c.place < 2 ^ 62) }
    requires place { place < 2 ^ 62 }
    ensures first { option_map clash result ≡ better (option_map clash best) name place (visit v) }
    ensures small { IfSome result (λ c. c.place < 2 ^ 62) }
{
    match v {
        Visit::Met(a, b) => sooner(best, a as usize, b as usize, name, place),
        _ => best,
    }
}

/// The first clash so far, or one of a pair of iterations that comes before its pair.
fn sooner(
    best: Option<Clash>,
    earlier: usize,
    later: usize,
    name: usize,
    place: usize,
) -> Option<Clash>
    requires best { IfSome best (λ c. c.place < 2 ^ 62) }
    requires place { place < 2 ^ 62 }
    ensures first { option_map clash result ≡ better (option_map clash best) name place (Met earlier later) }
    ensures small { IfSome result (λ c. c.place < 2 ^ 62) }
{
    let met = Clash {
        earlier,
        later,
        name,
        place,
    };
    match best {
        None => Some(met),
        Some(c) => {
            if c.earlier < earlier || (c.earlier == earlier && c.later <= later) {
                return best;
            }
            Some(met)
        }
    }
}
