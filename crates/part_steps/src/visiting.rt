//! Which tuples of a part a node has to ask.

ghost use Rattle.std.specs.Prelude.{◌≡◌, ◌<◌, ◌≤◌, ◌^◌, All, IfOk, IfSome, Some, length, option_map, true};
ghost use Rattle.hpf_base.specs.ElementOrder.{product};
ghost use Rattle.message_elements.specs.Candidates.{AreCandidates};
ghost use Rattle.courses.specs.References.{IsAlongAxes};
ghost use Rattle.course_forms.specs.Views.{named_of, names_of};
ghost use Rattle.tuple_values.specs.NamedElements.{AreInOrder, AreReferences};
ghost use Rattle.tuple_values.specs.Views.{statement as statement_of};
ghost use Rattle.part_steps.specs.Parts.{part_of};
ghost use Rattle.part_steps.specs.Views.{part_view};

use crate::part::Part;
use crate::who::Who;
use hpf_base::OutOfMemory;
use message_elements::Candidates;
use part_visits::{assigned_visits, read_visits, root_visits};
use std::alloc::Global;
use tuple_values::References;

/// The tuples that a node has to ask; None where that isn't told axis by axis.
pub(crate) fn part_visits(
    alloc: Global,
    part: &Part<'_>,
    id: u32,
) -> Result<Option<Candidates>, OutOfMemory>
    requires { id < part.now.owners.now.nodes }
    ensures { IfOk result (λ found. IfSome found (AreCandidates part.now.owners.now.nodes part.now.owners.now.layouts (part_of (part_view part.now)) id)) }
{
    if part.statement.count() > 1 << 32 {
        return Ok(None);
    }
    match part.statement.references()? {
        Some(references) => visits_by(alloc, part, &references, id),
        None => Ok(None),
    }
}

/// The same by what the statement names.
fn visits_by(
    alloc: Global,
    part: &Part<'_>,
    references: &References,
    id: u32,
) -> Result<Option<Candidates>, OutOfMemory>
    requires id { id < part.now.owners.now.nodes }
    requires references { AreReferences (statement_of part.now.statement.now) references.now.extents.items (option_map named_of references.now.left) (names_of references.now.reads.items) }
    requires order { references.now.in_order ≡ true → AreInOrder (statement_of part.now.statement.now) references.now.extents.items (names_of references.now.reads.items) }
    requires few { product references.now.extents.items ≤ 2 ^ 32 }
    ensures { IfOk result (λ found. IfSome found (AreCandidates part.now.owners.now.nodes part.now.owners.now.layouts (part_of (part_view part.now)) id)) }
{
    let extents = references.extents.as_slice();
    let reads = references.reads.as_slice();
    match part.who {
        Who::Left => {
            let Some(left) = &references.left else {
                return Ok(None);
            };
            let found = assigned_visits(alloc, part.owners, extents, left, reads, id)?;
            Ok(found)
        }
        Who::First => {
            if !references.in_order {
                return Ok(None);
            }
            let found = read_visits(alloc, part.owners, extents, reads, id)?;
            Ok(found)
        }
        Who::Root => {
            let found = root_visits(alloc, part.owners, extents, reads, id)?;
            Ok(found)
        }
    }
}
