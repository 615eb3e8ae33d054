//! FORALL (Fortran 95, 7.5.4).

ghost use Rattle.std.specs.Prelude.{◌≡◌, ◌≤◌, IfErr, IfOk, Ok, OnOk, map, option_map};
ghost use Rattle.array_meaning.specs.declared.limits.TheConstants.{MAX_TUPLES};
ghost use Rattle.hpf_base.specs.ElementOrder.{product};
ghost use Rattle.array_meaning.specs.Expressions.{all_index_values};
ghost use Rattle.array_meaning.specs.Forall.{assign_all_forall, assign_forall, index_extents, mask_over, run_forall};
ghost use Rattle.array_meaning.specs.Runs.{one_step};
ghost use Rattle.resolved_program.specs.Resolved.{control, element_assignment, term};
ghost use Rattle.term_values.specs.States.{state_of};
ghost use Rattle.term_values.specs.Stops.{IsStop};
ghost use Rattle.serial_run.specs.Completions.{IsRun, IsStopped};
ghost use Rattle.serial_run.specs.ForallParts.{forall_masked, forall_over, forall_within};
ghost use Rattle.serial_run.specs.SectionStores.{branch_mask};

use crate::completion::{Completion, ended, faulted};
use crate::forall_stores::{forall_stores, mask_values};
use crate::one_to_one::check_one_to_one;
use crate::section_assignments::store_each;
use crate::section_stores::{Branch, Space};
use array_meaning::{FaultKind, Sequence};
use forall_conditions::is_forall_in_limits;
use resolved_program::{Control, ElementAssignment, Term};
use std::alloc::{AllocError, Global};
use term_values::{State, Stop, fault, index_values, size};

/// A FORALL after its header: the values that its indices take, its mask and its assignments.
#[derive(Clone, Copy)]
struct Forall<'a> {
    line: u32,
    axes: &'a [Sequence],
    mask: &'a Option<Term>,
    body: &'a [ElementAssignment],
}

/// The values of a mask over a space, of which there are none where there is no mask.
#[derive(Drop)]
struct Mask {
    branch: Branch,
    values: Vec<i64>,
}

/// Runs a FORALL.
#[inline(never)]
pub(crate) fn run_forall(
    s: &mut State,
    line: u32,
    controls: &[Control],
    mask: &Option<Term>,
    body: &[ElementAssignment],
) -> Result<Completion, AllocError>
    ensures { IfOk result (IsRun (run_forall line (map control controls.now) (option_map term mask.now) (map element_assignment body.now) (state_of s.old)) (state_of s.new)) }
{
    match all_index_values(s, controls) {
        Ok(axes) => {
            let f = Forall {
                line,
                axes: &axes,
                mask,
                body,
            };
            run_over(s, f)
        }
        Err(stop) => faulted(line, stop),
    }
}

/// The values that the indices take, or the first fault of the header.
fn all_index_values(s: &State, controls: &[Control]) -> Result<Vec<Sequence>, Stop>
    ensures value { IfOk result (λ v. all_index_values (state_of s.now) (map control controls.now) ≡ Ok v.items) }
    ensures stopped { IfErr result (IsStop (all_index_values (state_of s.now) (map control controls.now))) }
{
    let mut axes = Vec::new(*s.scalars.allocator());
    for c in controls {
        let p = index_values(s, c)?;
        axes.push(p)?;
    }
    Ok(axes)
}

/// Runs it after its header.
fn run_over(s: &mut State, f: Forall<'_>) -> Result<Completion, AllocError>
    ensures { IfOk result (IsRun (forall_over f.entry.line f.entry.axes.now (option_map term f.entry.mask.now) (map element_assignment f.entry.body.now) (state_of s.old)) (state_of s.new)) }
{
    let extents = extents(*s.scalars.allocator(), f.axes)?;
    match size(&extents) {
        Some(n) => run_counted(s, f, &extents, n),
        None => faulted(f.line, fault(FaultKind::SpaceLimit)),
    }
}

/// How many values each index takes.
fn extents(alloc: Global, axes: &[Sequence]) -> Result<Vec<u128>, AllocError>
    ensures { IfOk result (λ v. v.items ≡ index_extents axes.now) }
{
    axes.iter().map(|p| p.count).collect(alloc)
}

/// Runs it after its header, where there are so many tuples. Where there is none, nothing more is evaluated.
fn run_counted(
    s: &mut State,
    f: Forall<'_>,
    extents: &[u128],
    n: usize,
) -> Result<Completion, AllocError>
    requires extents { extents.now ≡ index_extents f.axes.now }
    requires count { product extents.now ≡ n }
    requires few { n ≤ MAX_TUPLES }
    ensures { IfOk result (IsRun (forall_over f.entry.line f.entry.axes.now (option_map term f.entry.mask.now) (map element_assignment f.entry.body.now) (state_of s.old)) (state_of s.new)) }
{
    if n == 0 {
        return Ok(Completion::Normal);
    }
    if !is_forall_in_limits(s, f.axes, f.mask, f.body)? {
        return faulted(f.line, fault(FaultKind::SpaceLimit));
    }
    run_within(s, f, extents, n)
}

/// Runs it within the limits.
fn run_within(
    s: &mut State,
    f: Forall<'_>,
    extents: &[u128],
    n: usize,
) -> Result<Completion, AllocError>
    requires extents { extents.now ≡ index_extents f.axes.now }
    requires few { n ≤ MAX_TUPLES }
    ensures { IfOk result (IsRun (forall_within f.entry.line f.entry.axes.now n (option_map term f.entry.mask.now) (map element_assignment f.entry.body.now) (state_of s.old)) (state_of s.new)) }
{
    match check_one_to_one(s, extents, f.body)? {
        Completion::Normal => run_masked(s, f, extents, n),
        completion => Ok(completion),
    }
}

/// Evaluates the mask, and runs the assignments.
fn run_masked(
    s: &mut State,
    f: Forall<'_>,
    extents: &[u128],
    n: usize,
) -> Result<Completion, AllocError>
    requires { n ≤ MAX_TUPLES }
    ensures { IfOk result (IsRun (forall_masked f.entry.line f.entry.axes.now n (option_map term f.entry.mask.now) (map element_assignment f.entry.body.now) (state_of s.old)) (state_of s.new)) }
{
    match mask_over(s, f.axes, n, f.mask) {
        Ok(m) => {
            let space = Space {
                extents,
                branch: m.branch,
                mask: &m.values,
            };
            assign_all_forall(s, f.axes, n, space, f.body)
        }
        Err(stop) => faulted(f.line, stop),
    }
}

/// The mask, which is evaluated once.
fn mask_over(s: &State, axes: &[Sequence], n: usize, mask: &Option<Term>) -> Result<Mask, Stop>
    requires { n ≤ MAX_TUPLES }
    ensures value { IfOk result (λ m. mask_over (state_of s.now) axes.now n (option_map term mask.now) ≡ Ok (branch_mask m.branch m.values.items)) }
    ensures stopped { IfErr result (IsStop (mask_over (state_of s.now) axes.now n (option_map term mask.now))) }
{
    match mask {
        Some(t) => {
            let values = mask_values(s, axes, n, t)?;
            Ok(Mask {
                branch: Branch::Where,
                values,
            })
        }
        None => Ok(Mask {
            branch: Branch::Unmasked,
            values: Vec::new(*s.scalars.allocator()),
        }),
    }
}

/// Runs assignments one after the other, until one has a fault.
fn assign_all_forall(
    s: &mut State,
    axes: &[Sequence],
    n: usize,
    space: Space<'_>,
    body: &[ElementAssignment],
) -> Result<Completion, AllocError>
    requires { n ≤ MAX_TUPLES }
    ensures { IfOk result (IsRun (assign_all_forall axes.now n (branch_mask space.entry.branch space.entry.mask.now) (map element_assignment body.now) (state_of s.old)) (state_of s.new)) }
{
    for b in body {
        match run_assignment(s, axes, n, space, b)? {
            Completion::Normal => {}
            completion => return Ok(completion),
        }
    }
    Ok(Completion::Normal)
}

/// Runs an assignment.
fn run_assignment(
    s: &mut State,
    axes: &[Sequence],
    n: usize,
    space: Space<'_>,
    b: &ElementAssignment,
) -> Result<Completion, AllocError>
    requires { n ≤ MAX_TUPLES }
    ensures { IfOk result (IsRun (one_step b.now.line (state_of s.old) (assign_forall axes.now n (branch_mask space.entry.branch space.entry.mask.now) (element_assignment b.now) (state_of s.old))) (state_of s.new)) }
{
    let step = assign_forall(s, axes, n, space, b);
    ended(b.line, step)
}

/// Takes all values, and then stores them.
#[tactic(auto, using(crate::proofs::ForallStores::forall_is))]
fn assign_forall(
    s: &mut State,
    axes: &[Sequence],
    n: usize,
    space: Space<'_>,
    b: &ElementAssignment,
) -> Result<(), Stop>
    requires { n ≤ MAX_TUPLES }
    ensures value { OnOk result (assign_forall axes.now n (branch_mask space.entry.branch space.entry.mask.now) (element_assignment b.now) (state_of s.old) ≡ Ok (state_of s.new)) }
    ensures stopped { IfErr result (IsStopped (assign_forall axes.now n (branch_mask space.entry.branch space.entry.mask.now) (element_assignment b.now) (state_of s.old)) (state_of s.old) (state_of s.new)) }
{
    let stores = forall_stores(s, axes, n, space, b)?;
    store_each(s, b.array, &stores);
    Ok(())
}
