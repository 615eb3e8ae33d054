//! What the mask of a FORALL comes to, and what its assignments store (Fortran 95, 7.5.4.2). All of it is evaluated before anything is
//! stored.

ghost use Rattle.std.specs.Prelude.{◌≡◌, ◌≤◌, IfErr, IfOk, Ok, OnOk, Some, true};
ghost use Rattle.array_meaning.specs.declared.limits.TheConstants.{MAX_TUPLES};
ghost use Rattle.array_meaning.specs.Elementals.{each};
ghost use Rattle.array_meaning.specs.Expressions.{value};
ghost use Rattle.array_meaning.specs.Faults.{at_tuple};
ghost use Rattle.array_meaning.specs.Forall.{indices_at};
ghost use Rattle.array_meaning.specs.Terms.{More, NoTerm};
ghost use Rattle.resolved_program.specs.Resolved.{element_assignment, term};
ghost use Rattle.term_values.specs.States.{state_of};
ghost use Rattle.term_values.specs.Stops.{IsStop};
ghost use Rattle.serial_run.specs.SectionStores.{Keeps, branch_mask};
ghost use Rattle.serial_run.specs.ForallParts.{element_store, forall_store, forall_stores, masked_forall_store};

use crate::index_tuples::{advance, tuple_at};
use crate::section_stores::{Space, is_chosen};
use array_meaning::{Sequence, Store};
use resolved_program::{ElementAssignment, Term};
use scalar_values::{known_place_at, known_value_at};
use term_values::{State, Stop, at_tuple, element_place, value, values};

/// The values of a mask at the first tuples, in order; or its first fault, with its tuple.
pub(crate) fn mask_values(
    s: &State,
    axes: &[Sequence],
    n: usize,
    mask: &Term,
) -> Result<Vec<i64>, Stop>
    requires { n ≤ MAX_TUPLES }
    ensures value { IfOk result (λ v. each (indices_at axes.now) (λ t. value (indices_at axes.now t) (state_of s.now) (term mask.now)) n ≡ Ok v.items) }
    ensures stopped { IfErr result (IsStop (each (indices_at axes.now) (λ t. value (indices_at axes.now t) (state_of s.now) (term mask.now)) n)) }
{
    let alloc = *s.scalars.allocator();
    let mut values = Vec::new(alloc);
    let mut x = tuple_at(alloc, axes, 0)?;
    for t in 0..n {
        let v = tuple_value(s, &x.values, mask)?;
        values.push(v)?;
        advance(alloc, axes, t, &mut x)?;
    }
    Ok(values)
}

/// The value of an expression at a tuple; a fault has the tuple.
#[inline(always)]
fn tuple_value(s: &State, x: &[i64], t: &Term) -> Result<i64, Stop>
    ensures value { IfOk result (λ v. value x.now (state_of s.now) (term t.now) ≡ Ok v) }
    ensures stopped { IfErr result (IsStop (at_tuple x.now (value x.now (state_of s.now) (term t.now)))) }
{
    let v = known_value_at(s, x, t);
    if v.known {
        return Ok(v.value);
    }
    evaluated_at(s, x, t)
}

/// The value, or its fault, where it isn't known.
#[inline(never)]
fn evaluated_at(s: &State, x: &[i64], t: &Term) -> Result<i64, Stop>
    ensures value { IfOk result (λ v. value x.now (state_of s.now) (term t.now) ≡ Ok v) }
    ensures stopped { IfErr result (IsStop (at_tuple x.now (value x.now (state_of s.now) (term t.now)))) }
{
    match value(s, x, t) {
        Ok(v) => Ok(v),
        Err(stop) => Err(at_tuple(*s.scalars.allocator(), x, stop)),
    }
}

/// What an assignment stores at the first tuples, in order, where the mask is true; or its first fault, with its tuple.
pub(crate) fn forall_stores(
    s: &State,
    axes: &[Sequence],
    n: usize,
    space: Space<'_>,
    b: &ElementAssignment,
) -> Result<Vec<Store>, Stop>
    requires { n ≤ MAX_TUPLES }
    ensures value { IfOk result (λ v. forall_stores axes.now n (branch_mask space.entry.branch space.entry.mask.now) (element_assignment b.now) (state_of s.now) ≡ Ok v.items) }
    ensures stopped { IfErr result (IsStop (each (indices_at axes.now) (λ t. masked_forall_store (state_of s.now) (branch_mask space.entry.branch space.entry.mask.now) (element_assignment b.now) t (indices_at axes.now t)) n)) }
{
    let alloc = *s.scalars.allocator();
    let mut stores = Vec::new(alloc);
    let mut x = tuple_at(alloc, axes, 0)?;
    for t in 0..n {
        keep_store(s, space, b, t, &x.values, &mut stores)?;
        advance(alloc, axes, t, &mut x)?;
    }
    Ok(stores)
}

/// Puts what is stored at a tuple after others, if the mask is true at its number.
#[inline(always)]
fn keep_store(
    s: &State,
    space: Space<'_>,
    b: &ElementAssignment,
    t: usize,
    x: &[i64],
    stores: &mut Vec<Store>,
) -> Result<(), Stop>
    ensures value { OnOk result (Keeps (masked_forall_store (state_of s.now) (branch_mask space.entry.branch space.entry.mask.now) (element_assignment b.now) t x.now) stores.old.items stores.new.items) }
    ensures stopped { IfErr result (IsStop (at_tuple x.now (masked_forall_store (state_of s.now) (branch_mask space.entry.branch space.entry.mask.now) (element_assignment b.now) t x.now))) }
{
    if !is_chosen(space, t) {
        return Ok(());
    }
    let st = known_store(s, b, x);
    if st.known {
        stores.push(st.store)?;
        return Ok(());
    }
    keep_evaluated(s, b, x, stores)
}

/// What is stored at a tuple, where it is known.
#[derive(Clone, Copy)]
struct KnownStore {
    store: Store,
    known: bool,
}

/// What is stored at a tuple, where its place and its value are known.
#[inline(always)]
fn known_store(s: &State, b: &ElementAssignment, x: &[i64]) -> KnownStore
    ensures { result.known ≡ true → forall_store (state_of s.now) (element_assignment b.now) x.now ≡ Ok (Some result.store) }
{
    let p = known_place_at(s, x, b.array, &b.subscripts);
    let v = known_value_at(s, x, &b.right);
    KnownStore {
        store: Store {
            place: p.place,
            value: v.value,
        },
        known: p.known & v.known,
    }
}

/// Evaluates what is stored at a tuple, where it isn't known, and puts it after others.
#[inline(never)]
fn keep_evaluated(
    s: &State,
    b: &ElementAssignment,
    x: &[i64],
    stores: &mut Vec<Store>,
) -> Result<(), Stop>
    ensures value { OnOk result (Keeps (forall_store (state_of s.now) (element_assignment b.now) x.now) stores.old.items stores.new.items) }
    ensures stopped { IfErr result (IsStop (at_tuple x.now (forall_store (state_of s.now) (element_assignment b.now) x.now))) }
{
    let st = tuple_store(s, b, x)?;
    stores.push(st)?;
    Ok(())
}

/// What is stored at a tuple; a fault has the tuple.
fn tuple_store(s: &State, b: &ElementAssignment, x: &[i64]) -> Result<Store, Stop>
    ensures value { IfOk result (λ st. forall_store (state_of s.now) (element_assignment b.now) x.now ≡ Ok (Some st)) }
    ensures stopped { IfErr result (IsStop (at_tuple x.now (forall_store (state_of s.now) (element_assignment b.now) x.now))) }
{
    match forall_store(s, b, x) {
        Ok(st) => Ok(st),
        Err(stop) => Err(at_tuple(*s.scalars.allocator(), x, stop)),
    }
}

/// What is stored at a tuple: the left side's subscripts and its bounds come before the right side.
fn forall_store(s: &State, b: &ElementAssignment, x: &[i64]) -> Result<Store, Stop>
    ensures value { IfOk result (λ st. forall_store (state_of s.now) (element_assignment b.now) x.now ≡ Ok (Some st)) }
    ensures stopped { IfErr result (IsStop (forall_store (state_of s.now) (element_assignment b.now) x.now)) }
{
    if b.subscripts.len() == 1 {
        return store_of_one(s, b.array, &b.subscripts[0], &b.right, x);
    }
    let subscripts = values(s, x, &b.subscripts)?;
    let place = element_place(s, b.array, subscripts.as_slice())?;
    let value = value(s, x, &b.right)?;
    Ok(Store { place, value })
}

/// What is stored at a tuple where the left side has one subscript: this and its bounds come before the right side.
fn store_of_one(
    s: &State,
    array: usize,
    subscript: &Term,
    right: &Term,
    x: &[i64],
) -> Result<Store, Stop>
    ensures value { IfOk result (λ st. element_store (state_of s.now) array (More (term subscript.now) NoTerm) (term right.now) x.now ≡ Ok (Some st)) }
    ensures stopped { IfErr result (IsStop (element_store (state_of s.now) array (More (term subscript.now) NoTerm) (term right.now) x.now)) }
{
    let i = value(s, x, subscript)?;
    let place = element_place(s, array, &[i])?;
    let value = value(s, x, right)?;
    Ok(Store { place, value })
}
