//! Array assignments, by themselves and in a WHERE (Fortran 95, 7.5.1.5 and 7.5.3).

ghost use Rattle.std.specs.Prelude.{◌≡◌, IfErr, IfOk, Ok, OnOk};
ghost use Rattle.array_meaning.specs.ArrayAssignments.{assign_section, assign_where};
ghost use Rattle.array_meaning.specs.Execution.{run};
ghost use Rattle.array_meaning.specs.Statements.{AssignSection};
ghost use Rattle.resolved_program.specs.Resolved.{section_assignment, subscripts_of, term};
ghost use Rattle.term_values.specs.States.{state_of};
ghost use Rattle.serial_run.specs.Completions.{IsRun, IsStopped};
ghost use Rattle.serial_run.specs.SectionStores.{branch_mask, stored_each};

use crate::completion::{Completion, ended};
use crate::row_stores::store_kept;
use crate::section_stores::{Space, section_stores, where_stores};
use array_meaning::Store;
use resolved_program::{SectionAssignment, SectionSubscript, Term};
use std::alloc::AllocError;
use term_values::{State, Stop};

/// Runs an assignment to a section.
#[inline(never)]
pub(crate) fn run_assign_section(
    s: &mut State,
    line: u32,
    array: usize,
    subscripts: &Vec<SectionSubscript>,
    right: &Term,
) -> Result<Completion, AllocError>
    ensures { IfOk result (IsRun (run (AssignSection array (subscripts_of subscripts.now.items) (term right.now)) line (state_of s.old)) (state_of s.new)) }
{
    let step = assign_section(s, array, subscripts, right);
    ended(line, step)
}

/// Assigns to a section.
#[tactic(auto, using(crate::proofs::StoredSections::section_is))]
fn assign_section(
    s: &mut State,
    array: usize,
    subscripts: &Vec<SectionSubscript>,
    right: &Term,
) -> Result<(), Stop>
    ensures value { OnOk result (assign_section array (subscripts_of subscripts.now.items) (term right.now) (state_of s.old) ≡ Ok (state_of s.new)) }
    ensures stopped { IfErr result (IsStopped (assign_section array (subscripts_of subscripts.now.items) (term right.now) (state_of s.old)) (state_of s.old) (state_of s.new)) }
{
    let stores = section_stores(s, array, subscripts, right)?;
    store_kept(s, array, &stores);
    Ok(())
}

/// Assigns to a section where a mask is true.
#[tactic(auto, using(crate::proofs::StoredSections::where_is))]
pub(crate) fn assign_where(
    s: &mut State,
    space: Space<'_>,
    b: &SectionAssignment,
) -> Result<(), Stop>
    ensures value { OnOk result (assign_where space.entry.extents.now (branch_mask space.entry.branch space.entry.mask.now) (section_assignment b.now) (state_of s.old) ≡ Ok (state_of s.new)) }
    ensures stopped { IfErr result (IsStopped (assign_where space.entry.extents.now (branch_mask space.entry.branch space.entry.mask.now) (section_assignment b.now) (state_of s.old)) (state_of s.old) (state_of s.new)) }
{
    let stores = where_stores(s, space, b)?;
    store_kept(s, b.array, &stores);
    Ok(())
}

/// Stores, in order.
pub(crate) fn store_each(s: &mut State, array: usize, stores: &[Store])
    ensures { state_of s.new ≡ stored_each (state_of s.old) array stores.now }
{
    for st in stores {
        s.store(array, st.place, st.value);
    }
}
