//! What passes of the places of one axis, and of the subscripts that move along none.

ghost use Rattle.std.specs.Prelude.{◌≡◌, ◌^◌, ℕ, ◌<◌, ◌≤◌, ◌++◌, [], ◌∷◌, Bool, cond, IfOk, filter, length};
ghost use Rattle.std.specs.List.{range_with_len};
ghost use Rattle.hpf_base.specs.ElementOrder.{product};
ghost use Rattle.courses.specs.Subscripts.{axis_pass, fixed_pass};
ghost use Rattle.course_forms.specs.Views.{course_of, courses_of};
ghost use Rattle.owned_places.specs.Candidates.{AreCandidates, all_candidates};
ghost use Rattle.owned_places.specs.Dims.{LieInside, held_dim};

use crate::candidates::{Candidates, candidates_on};
use crate::dims::{is_held, subscript_on};
use course_forms::Course;
use expression_rules::Dim;
use hpf_base::OutOfMemory;
use mappings::Mapping;
use std::alloc::Global;

/// Whether the subscripts that are the same at each tuple are in bounds, and the node's by what their dimensions tell.
pub(crate) fn are_fixed_held(dims: &[Dim], mapping: &Mapping, node: u32, courses: &[Course]) -> bool
    requires lie { LieInside dims.now mapping.now }
    requires node { node < product mapping.now.grid }
    requires rank { length courses.now ≡ length dims.now }
    ensures { result ≡ fixed_pass (held_dim dims.now mapping.now node) 0 (courses_of courses.now) }
{
    for k in 0..courses.len() {
        if !is_fixed_held(dims, mapping, node, &courses[k], k) {
            return false;
        }
    }
    true
}

/// The same of one dimension.
fn is_fixed_held(dims: &[Dim], mapping: &Mapping, node: u32, course: &Course, k: usize) -> bool
    requires lie { LieInside dims.now mapping.now }
    requires node { node < product mapping.now.grid }
    requires dim { k < length dims.now }
    ensures { result ≡ fixed_pass (held_dim dims.now mapping.now node) k (course_of course.now ∷ []) }
{
    match course {
        Course::Fixed(i) => is_held(dims, mapping, node, k, *i as i128),
        Course::Moving { .. } => true,
    }
}

/// Whether the subscripts that move along an axis are in bounds at a place of it, and the node's by what their dimensions tell.
pub(crate) fn are_held_at(
    dims: &[Dim],
    mapping: &Mapping,
    node: u32,
    courses: &[Course],
    axis: usize,
    place: u32,
) -> bool
    requires lie { LieInside dims.now mapping.now }
    requires node { node < product mapping.now.grid }
    requires rank { length courses.now ≡ length dims.now }
    ensures { result ≡ axis_pass (held_dim dims.now mapping.now node) 0 (courses_of courses.now) axis place }
{
    for k in 0..courses.len() {
        if !is_moving_held(dims, mapping, node, &courses[k], k, axis, place) {
            return false;
        }
    }
    true
}

/// The same of one dimension.
fn is_moving_held(
    dims: &[Dim],
    mapping: &Mapping,
    node: u32,
    course: &Course,
    k: usize,
    axis: usize,
    place: u32,
) -> bool
    requires lie { LieInside dims.now mapping.now }
    requires node { node < product mapping.now.grid }
    requires dim { k < length dims.now }
    ensures { result ≡ axis_pass (held_dim dims.now mapping.now node) k (course_of course.now ∷ []) axis place }
{
    match course {
        Course::Moving {
            axis: along,
            first,
            step,
        } if *along == axis => {
            is_held(dims, mapping, node, k, subscript_on(*first, *step, place))
        }
        _ => true,
    }
}

/// The places of an axis at which the subscripts that move along it are in bounds, and the node's by what their dimensions tell.
pub(crate) fn places_on(
    alloc: Global,
    dims: &[Dim],
    mapping: &Mapping,
    node: u32,
    courses: &[Course],
    axis: usize,
    extent: u64,
) -> Result<Vec<u32>, OutOfMemory>
    requires lie { LieInside dims.now mapping.now }
    requires node { node < product mapping.now.grid }
    requires rank { length courses.now ≡ length dims.now }
    requires few { extent ≤ 2 ^ 32 }
    ensures { IfOk result (λ places. places.items
        ≡ filter (axis_pass (held_dim dims.now mapping.now node) 0 (courses_of courses.now) axis) (range_with_len 0 extent)) }
{
    let candidates = candidates_on(alloc, dims, mapping, node, courses, axis, extent)?;
    if candidates.exact {
        return places_of(alloc, &candidates);
    }
    places_held(alloc, dims, mapping, node, courses, axis, &candidates)
}

/// All the places.
fn places_of(alloc: Global, candidates: &Candidates) -> Result<Vec<u32>, OutOfMemory>
    requires few { (passes : ℕ → Bool) × ((extent : ℕ) × (AreCandidates passes extent candidates.now × (extent ≤ 2 ^ 32))) }
    ensures { IfOk result (λ places. places.items ≡ all_candidates candidates.now) }
{
    let mut places = Vec::new(alloc);
    for n in 0..candidates.count {
        places.push(candidates.place(n))?;
    }
    Ok(places)
}

/// Those of the places that pass.
fn places_held(
    alloc: Global,
    dims: &[Dim],
    mapping: &Mapping,
    node: u32,
    courses: &[Course],
    axis: usize,
    candidates: &Candidates,
) -> Result<Vec<u32>, OutOfMemory>
    requires lie { LieInside dims.now mapping.now }
    requires node { node < product mapping.now.grid }
    requires rank { length courses.now ≡ length dims.now }
    requires few { (passes : ℕ → Bool) × ((extent : ℕ) × (AreCandidates passes extent candidates.now × (extent ≤ 2 ^ 32))) }
    ensures { IfOk result (λ places. places.items
        ≡ filter (axis_pass (held_dim dims.now mapping.now node) 0 (courses_of courses.now) axis) (all_candidates candidates.now)) }
{
    let mut places = Vec::new(alloc);
    for n in 0..candidates.count {
        let place = candidates.place(n);
        push_if(
            &mut places,
            are_held_at(dims, mapping, node, courses, axis, place),
            place,
        )?;
    }
    Ok(places)
}

/// One place more, if it is kept.
fn push_if(places: &mut Vec<u32>, is_kept: bool, place: u32) -> Result<(), OutOfMemory>
    ensures { IfOk result (λ _. places.new.items ≡ places.old.items ++ cond is_kept (place ∷ []) []) }
{
    if is_kept {
        places.push(place)?;
    }
    Ok(())
}
