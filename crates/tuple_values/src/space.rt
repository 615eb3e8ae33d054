//! The spaces of parallel statements.

ghost use Rattle.std.specs.Prelude.{◌≡◌, ◌<◌, ◌≤◌, option_map, IfOk, None, Some};
ghost use Rattle.array_meaning.specs.declared.limits.TheConstants.{MAX_TUPLES};
ghost use Rattle.array_meaning.specs.Sections.{extents};
ghost use Rattle.machine_steps.specs.Space.{space_count};
ghost use Rattle.code_meaning.specs.Forms.{selections_in};
ghost use Rattle.node_code.specs.Texts.{subs};
ghost use Rattle.courses.specs.Entries.{axes_in, entries_in};

use array_meaning::Selection;
use hpf_base::OutOfMemory;
use node_code::Sub;
use slot_values::{selections_at, space_count};
use smallvec::SmallVec;
use std::alloc::Global;
use term_values::{extents, positions, subscripts_at};

/// The tuples at which a statement works.
#[derive(Drop)]
pub(crate) struct Space {
    pub(crate) extents: Vec<u128>,
    /// The number of tuples; none past the limit.
    pub(crate) count: usize,
    /// The values of the indices of a FORALL or a nest.
    pub(crate) indices: Option<Vec<Selection>>,
    ghost sized: { space_count extents.items ≡ count },
    ghost few: { count ≤ MAX_TUPLES },
}

/// The space of a section, whose tuples are positions.
pub(crate) fn section_space(
    alloc: Global,
    slots: &[i64],
    over: &[Sub],
) -> Result<Space, OutOfMemory>
    ensures extents { IfOk result (λ s. s.extents.items ≡ extents (selections_in slots.now (subs over.now))) }
    ensures indices { IfOk result (λ s. option_map (λ ds. ds.items) s.indices ≡ None) }
{
    let ds = selections_at(alloc, slots, &[], over)?;
    let extents = extents(alloc, &ds)?;
    Ok(sized(extents, None))
}

/// The space of the indices of a FORALL or a nest, whose tuples are their values.
pub(crate) fn index_space(alloc: Global, slots: &[i64], over: &[Sub]) -> Result<Space, OutOfMemory>
    ensures extents { IfOk result (λ s. s.extents.items ≡ extents (selections_in slots.now (subs over.now))) }
    ensures indices { IfOk result (λ s. option_map (λ ds. ds.items) s.indices ≡ Some (selections_in slots.now (subs over.now))) }
{
    let ds = selections_at(alloc, slots, &[], over)?;
    let extents = extents(alloc, &ds)?;
    Ok(sized(extents, Some(ds)))
}

/// The space with these extents, and these values of indices.
fn sized(extents: Vec<u128>, indices: Option<Vec<Selection>>) -> Space
    ensures extents { result.extents ≡ extents }
    ensures indices { result.indices ≡ indices }
{
    let count = space_count(&extents);
    Space {
        extents,
        count,
        indices,
    }
}

impl Space {
    /// The entries of a tuple.
    pub(crate) fn entries(&self, tuple: usize) -> Result<SmallVec<i64, 7>, OutOfMemory>
        ensures { IfOk result (λ x. x.items ≡ entries_in (option_map (λ ds. ds.items) self.now.indices) self.now.extents.items tuple) }
    {
        let alloc = *self.extents.allocator();
        let x = positions(alloc, &self.extents, tuple)?;
        match &self.indices {
            None => Ok(x),
            Some(ds) => Ok(subscripts_at(alloc, ds, x.as_slice())?),
        }
    }

    /// The axes of expressions at these entries.
    pub(crate) fn axes<'b>(&self, x: &'b [i64]) -> &'b [i64]
        ensures { result.now ≡ axes_in (option_map (λ ds. ds.items) self.now.indices) x.now }
    {
        match &self.indices {
            None => &[],
            Some(_) => x,
        }
    }
}
