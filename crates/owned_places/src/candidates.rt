//! Places of an axis among which are all that pass: few where a node owns few.

ghost use Rattle.std.specs.Prelude.{◌≡◌, ◌≢◌, ◌^◌, ℕ, ◌+◌, ◌*◌, ◌/◌, ◌%◌, ◌<◌, ◌≤◌, ◌&&◌, ◌∷◌, [], pos, Bool, true, IfOk, IfSome, Some, None, length};
ghost use Rattle.hpf_base.specs.ElementOrder.{product};
ghost use Rattle.std.specs.List.{range_with_len};
ghost use Rattle.gap_table.specs.GapTable.{nth_of, places_of};
ghost use Rattle.courses.specs.AxisTables.{subscript_on};
ghost use Rattle.courses.specs.Subscripts.{axis_pass, in_dim};
ghost use Rattle.course_forms.specs.Views.{course_of, courses_of};
ghost use Rattle.owned_places.specs.Candidates.{AreCandidates, IsFiltered, candidate, classes_in, classes_of, number_in, period_of};
ghost use Rattle.owned_places.specs.Dims.{LieInside, held_dim};

use crate::dims::{entries_asking, narrow, subscript_on};
use crate::spans::{Span, span_of};
use crate::tables::table_on;
use course_forms::Course;
use expression_rules::Dim;
use gap_table::GapTable;
use hpf_base::OutOfMemory;
use mappings::Mapping;
use std::alloc::Global;

/// So many places of an axis: those that follow one another from `begin` on, or those of a table, counted from `begin`. Where they are known to be all
/// that pass and no others, `exact` says so.
#[derive(Drop)]
pub struct Candidates {
    pub(crate) begin: u64,
    pub(crate) count: u64,
    pub(crate) exact: bool,
    table: Option<GapTable>,
}

/// Places of an axis, with all at which the subscripts that move along it are in bounds, and the node's by what their dimensions tell: the fewest that one
/// dimension leaves.
pub(crate) fn candidates_on(
    alloc: Global,
    dims: &[Dim],
    mapping: &Mapping,
    node: u32,
    courses: &[Course],
    axis: usize,
    extent: u64,
) -> Result<Candidates, OutOfMemory>
    requires lie { LieInside dims.now mapping.now }
    requires node { node < product mapping.now.grid }
    requires rank { length courses.now ≡ length dims.now }
    requires few { extent ≤ 2 ^ 32 }
    ensures { IfOk result (AreCandidates (axis_pass (held_dim dims.now mapping.now node) 0 (courses_of courses.now) axis) extent) }
{
    let mut found = all_places(extent, true);
    for k in 0..courses.len() {
        let candidates = candidates_by(alloc, dims, mapping, node, &courses[k], k, axis, extent)?;
        found = fewer(found, candidates, extent);
    }
    Ok(found)
}

/// The same of one dimension.
fn candidates_by(
    alloc: Global,
    dims: &[Dim],
    mapping: &Mapping,
    node: u32,
    course: &Course,
    k: usize,
    axis: usize,
    extent: u64,
) -> Result<Candidates, OutOfMemory>
    requires lie { LieInside dims.now mapping.now }
    requires node { node < product mapping.now.grid }
    requires dim { k < length dims.now }
    requires few { extent ≤ 2 ^ 32 }
    ensures { IfOk result (AreCandidates (axis_pass (held_dim dims.now mapping.now node) k (course_of course.now ∷ []) axis) extent) }
{
    match course {
        Course::Fixed(_) => Ok(all_places(extent, true)),
        Course::Moving {
            axis: along,
            first,
            step,
        } => {
            if *along != axis {
                return Ok(all_places(extent, true));
            }
            if *step == 0 {
                return Ok(all_places(extent, false));
            }
            let candidates = candidates_along(
                alloc, dims, mapping, node, k, *first, *step, extent,
            )?;
            Ok(candidates)
        }
    }
}

/// The places at which a subscript that moves along the axis is in bounds, and of these those of a table, where there is one. The former are all that pass
/// where no entry asks the dimension, and the latter where one alone does.
fn candidates_along(
    alloc: Global,
    dims: &[Dim],
    mapping: &Mapping,
    node: u32,
    k: usize,
    first: i64,
    step: i64,
    extent: u64,
) -> Result<Candidates, OutOfMemory>
    requires lie { LieInside dims.now mapping.now }
    requires node { node < product mapping.now.grid }
    requires dim { k < length dims.now }
    requires moves { step ≢ pos 0 }
    requires few { extent ≤ 2 ^ 32 }
    ensures { IfOk result (AreCandidates (λ place. held_dim dims.now mapping.now node k (subscript_on first step place)) extent) }
{
    let Span { begin, end } = span_of(dims[k], first, step, extent);
    let count = end - begin;
    if count < 2 {
        return Ok(places_from(begin, count, false));
    }
    let entries = entries_asking(mapping, k);
    let i = narrow(subscript_on(first, step, begin as u32));
    match table_on(alloc, mapping, node, k, i, step, count)? {
        None => Ok(places_from(begin, count, entries == 0)),
        Some(table) => Ok(places_in(begin, table, entries == 1)),
    }
}

/// All places below extent, which are exact where each of them passes.
fn all_places(extent: u64, exact: bool) -> Candidates
    ensures { (passes : ℕ → Bool) → (exact ≡ true → (x : ℕ) → x < extent → passes x ≡ true) → AreCandidates passes extent result }
{
    places_from(0, extent, exact)
}

/// So many places from a first one on.
fn places_from(begin: u64, count: u64, exact: bool) -> Candidates
    ensures { result ≡ record { begin = begin; count = count; exact = exact; table = None } }
{
    Candidates {
        begin,
        count,
        exact,
        table: None,
    }
}

/// The places of a table, counted from a first one; without it where they follow one another.
fn places_in(begin: u64, table: GapTable, exact: bool) -> Candidates
    requires few { begin ≤ 2 ^ 32 }
    requires filtered { (test : ℕ → Bool) × ((count : ℕ) × ((count ≤ 2 ^ 32) × IsFiltered test count table)) }
    ensures { (passes : ℕ → Bool) (extent : ℕ) → AreCandidates passes extent record { begin = begin; count = table.len; exact = exact; table = Some table }
        → AreCandidates passes extent result }
{
    let count = table.len();
    match first_of_run(&table) {
        Some(first) => places_from(begin + first, count, exact),
        None => Candidates {
            begin,
            count,
            exact,
            table: Some(table),
        },
    }
}

/// The first number of a table whose numbers follow one another; None for any other, and for one with none.
fn first_of_run(table: &GapTable) -> Option<u64>
    requires filtered { (test : ℕ → Bool) × ((count : ℕ) × ((count ≤ 2 ^ 32) × IsFiltered test count table.now)) }
    ensures places { IfSome result (λ first. places_of table.now ≡ range_with_len first table.now.len) }
    ensures small { IfSome result (λ first. first < 2 ^ 32) }
{
    let count = table.len();
    if count == 0 {
        return None;
    }
    let first = number_of(table, 0);
    let last = number_of(table, count - 1);
    if last >= first && last - first == count - 1 {
        Some(first)
    } else {
        None
    }
}

/// The fewer of two, for what passes by both.
fn fewer(a: Candidates, b: Candidates, extent: u64) -> Candidates
    ensures { (p q : ℕ → Bool) → AreCandidates p extent a → AreCandidates q extent b → AreCandidates (λ place. p place && q place) extent result }
{
    if b.count < a.count {
        narrowed(b, a, extent)
    } else {
        narrowed(a, b, extent)
    }
}

/// The first of two, for what passes by both. It stays exact where the other one is and has all places.
fn narrowed(few: Candidates, many: Candidates, extent: u64) -> Candidates
    ensures { (p q : ℕ → Bool) → AreCandidates p extent few → AreCandidates q extent many → AreCandidates (λ place. p place && q place) extent result }
{
    let exact = few.exact & many.exact & (many.count == extent);
    Candidates { exact, ..few }
}

impl Candidates {
    /// How many places there are.
    pub fn len(&self) -> u64
        ensures { result ≡ self.now.count }
    {
        self.count
    }

    /// How many classes the places fall into. Those of a class follow one another by the period.
    pub fn classes(&self) -> u64
        ensures value { result ≡ classes_of self.now }
        ensures repeat { (passes : ℕ → Bool) (extent : ℕ) → AreCandidates passes extent self.now → (n : ℕ) → n < self.now.count
            → candidate self.now n ≡ candidate self.now (n % classes_of self.now) + period_of self.now * (n / classes_of self.now) }
        ensures some { (passes : ℕ → Bool) (extent : ℕ) → AreCandidates passes extent self.now → 1 ≤ self.now.count → 1 ≤ classes_of self.now }
    {
        classes_in(&self.table).min(self.count)
    }

    /// How far one place of a class is from the next.
    pub fn period(&self) -> u64
        ensures value { result ≡ period_of self.now }
        ensures some { 1 ≤ period_of self.now }
    {
        match &self.table {
            None => 1,
            Some(table) => table.period(),
        }
    }

    /// The n-th place, counted from 0.
    pub fn place(&self, n: u64) -> u32
        requires few { (passes : ℕ → Bool) × ((extent : ℕ) × (AreCandidates passes extent self.now × (extent ≤ 2 ^ 32))) }
        requires below { n < self.now.count }
        ensures { result ≡ candidate self.now n }
    {
        (self.begin + number_in(&self.table, n)) as u32
    }
}

/// How many places there are in a period of a table; one without a table.
fn classes_in(table: &Option<GapTable>) -> u64
    ensures value { result ≡ classes_in table.now }
    ensures some { IfSome table.now (λ t. 1 ≤ t.len → 1 ≤ length t.offsets) }
{
    match table {
        None => 1,
        Some(table) => table.in_period(),
    }
}

/// The n-th number of a table; n itself without one.
fn number_in(table: &Option<GapTable>, n: u64) -> u64
    requires { IfSome table.now (λ t. n < t.len) }
    ensures { result ≡ number_in table.now n }
{
    match table {
        None => n,
        Some(table) => number_of(table, n),
    }
}

/// The n-th number of a table.
fn number_of(table: &GapTable, n: u64) -> u64
    requires { n < table.now.len }
    ensures { result ≡ nth_of table.now n }
{
    match table.nth(n) {
        None => unreachable!(),
        Some(place) => place,
    }
}
