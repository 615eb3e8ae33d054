//! The tuples that a node has to ask, by who computes them.

ghost use Rattle.std.specs.Prelude.{◌≡◌, ℕ, ◌<◌, ◌≤◌, ◌==◌, ◌^◌, Bool, All, IfOk, IfSome, IsTrue, List, length, map, option_map};
ghost use Rattle.hpf_base.specs.ElementOrder.{product};
ghost use Rattle.machine_steps.specs.Layout.{in_bounds};
ghost use Rattle.machine_steps.specs.Message.{Part, computes_left, first_read, least_or_zero};
ghost use Rattle.message_elements.specs.Candidates.{AreCandidates};
ghost use Rattle.courses.specs.References.{IsAlongAxes, Named, named_spot};
ghost use Rattle.course_forms.specs.Views.{named_of, names_of};
ghost use Rattle.visited_tuples.specs.Own.{IsOwn};
ghost use Rattle.visited_tuples.specs.Owned.{Lies};
ghost use Rattle.visited_tuples.specs.Parts.{IsPartOf};
ghost use Rattle.visited_tuples.specs.Visited.{Suffice};

use crate::own::Own;
use crate::visitor::Visitor;
use course_forms::Reference;
use hpf_base::OutOfMemory;
use message_elements::Candidates;
use owner_tables::Owners;
use std::alloc::Global;

/// The tuples that a node has to ask of a part whose tuples the owners of what is assigned compute; None where that can't be told axis by axis.
pub fn assigned_visits(
    alloc: Global,
    owners: &Owners,
    extents: &[u64],
    left: &Reference,
    reads: &[Reference],
    id: u32,
) -> Result<Option<Candidates>, OutOfMemory>
    requires id { id < owners.now.nodes }
    requires tuples { product extents.now ≤ 2 ^ 32 }
    requires left { IsAlongAxes (length extents.now) (named_of left.now) }
    requires reads { All (IsAlongAxes (length extents.now)) (names_of reads.now) }
    ensures { IfOk result (λ v. IfSome v (λ v. (part : Part)
        → IsPartOf extents.now (names_of reads.now) (λ node t. computes_left owners.now.layouts node (in_bounds owners.now.layouts (named_spot extents.now t (named_of left.now)))) part
        → AreCandidates owners.now.nodes owners.now.layouts part id v)) }
{
    if !are_few(extents) {
        return Ok(None);
    }
    let visitor = Visitor {
        owners,
        extents,
        id,
    };
    match visitor.own_of_assigned(alloc, left)? {
        Some(own) => {
            let few = visitor.apart(alloc, left, reads)?;
            let found = visitor.visits(alloc, &few, own)?;
            Ok(found)
        }
        None => Ok(None),
    }
}

/// The same where the least owner of what is read first computes.
pub fn read_visits(
    alloc: Global,
    owners: &Owners,
    extents: &[u64],
    reads: &[Reference],
    id: u32,
) -> Result<Option<Candidates>, OutOfMemory>
    requires id { id < owners.now.nodes }
    requires tuples { product extents.now ≤ 2 ^ 32 }
    requires reads { All (IsAlongAxes (length extents.now)) (names_of reads.now) }
    ensures { IfOk result (λ v. IfSome v (λ v. (part : Part)
        → IsPartOf extents.now (names_of reads.now)
        (λ node t. least_or_zero owners.now.nodes owners.now.layouts (in_bounds owners.now.layouts (first_read (map (named_spot extents.now t) (names_of reads.now)))) == node) part
        → AreCandidates owners.now.nodes owners.now.layouts part id v)) }
{
    if !are_few(extents) {
        return Ok(None);
    }
    let visitor = Visitor {
        owners,
        extents,
        id,
    };
    if reads.is_empty() {
        return Ok(None);
    }
    let Some(own) = visitor.own_of_read(alloc, &reads[0])? else {
        return Ok(None);
    };
    let found = visitor.visits(alloc, reads, own)?;
    Ok(found)
}

/// The same where node 0 computes.
pub fn root_visits(
    alloc: Global,
    owners: &Owners,
    extents: &[u64],
    reads: &[Reference],
    id: u32,
) -> Result<Option<Candidates>, OutOfMemory>
    requires id { id < owners.now.nodes }
    requires tuples { product extents.now ≤ 2 ^ 32 }
    requires reads { All (IsAlongAxes (length extents.now)) (names_of reads.now) }
    ensures { IfOk result (λ v. IfSome v (λ v. (part : Part)
        → IsPartOf extents.now (names_of reads.now) (λ node t. node == 0) part → AreCandidates owners.now.nodes owners.now.layouts part id v)) }
{
    if !are_few(extents) {
        return Ok(None);
    }
    let visitor = Visitor {
        owners,
        extents,
        id,
    };
    let own = visitor.own_of_root(alloc)?;
    visitor.visits(alloc, reads, own)
}

/// Whether the places of each axis are numbers of 32 bits.
fn are_few(extents: &[u64]) -> bool
    ensures { IsTrue result → All (λ n. n ≤ 2 ^ 32) extents.now }
{
    for extent in extents {
        if *extent > 1 << 32 {
            return false;
        }
    }
    true
}

impl<'a> Visitor<'a> {
    /// The tuples to be asked, by what the node computes and references that suffice; None where rows don't lie as references take them.
    fn visits(
        &self,
        alloc: Global,
        reads: &[Reference],
        own: Own,
    ) -> Result<Option<Candidates>, OutOfMemory>
        requires reads { All (IsAlongAxes (length self.now.extents.now)) (names_of reads.now) }
        requires own { (who : (node tuple : ℕ) → Bool) × IsOwn who self.now.owners.now.nodes self.now.extents.now self.now.id
            (option_map (λ lists. map (λ v. v.items) lists.items) own.lists) own.beside.items }
        ensures { (who : (node tuple : ℕ) → Bool)
            → IsOwn who self.now.owners.now.nodes self.now.extents.now self.now.id (option_map (λ lists. map (λ v. v.items) lists.items) own.lists) own.beside.items
            → (rs : List Named) → Suffice who self.now.owners.now.layouts self.now.extents.now rs (names_of reads.now)
            → IfOk result (λ v. IfSome v (λ v. (part : Part) → IsPartOf self.now.extents.now rs who part
            → AreCandidates self.now.owners.now.nodes self.now.owners.now.layouts part self.now.id v)) }
    {
        if !self.all_lie(reads) {
            return Ok(None);
        }
        let taking = self.taking(alloc, reads, &own)?;
        let sending = self.sending(alloc, reads, &own)?;
        let computed = self.short_tuples(alloc, &own.lists)?;
        Ok(Some(Candidates {
            computed,
            taking,
            sending,
        }))
    }
}
