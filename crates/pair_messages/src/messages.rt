//! The message of a pair of nodes.

ghost use Rattle.std.specs.Prelude.{◌≡◌, ℕ, ◌<◌, ◌≤◌, ◌^◌, All, IfOk, IsTrue, length, map};
ghost use Rattle.hpf_base.specs.ElementOrder.{product};
ghost use Rattle.storage.specs.Spots.{spot_of};
ghost use Rattle.machine_steps.specs.Layout.{in_bounds};
ghost use Rattle.machine_steps.specs.Message.{Part, computes_left, message};
ghost use Rattle.courses.specs.References.{IsAlongAxes, named_spot};
ghost use Rattle.course_forms.specs.Views.{named_of, names_of};
ghost use Rattle.visited_tuples.specs.Parts.{IsPartOf};
ghost use Rattle.pair_messages.specs.Sent.{AreSent, computes_named};

use crate::pair::{Pair, all_lie, lies};
use course_forms::Reference;
use hpf_base::OutOfMemory;
use message_elements::arrange_list;
use owned_places::is_inside;
use owner_tables::Owners;
use std::alloc::Global;
use storage::Spot;

/// The elements of the message from one node to another for a part whose tuples the owners of what is assigned compute: row by row, each in array-element
/// order, and each once. They are found axis by axis where what is assigned is in bounds at each tuple and the rows have the dimensions of the references, and else
/// tuple by tuple.
pub fn message(
    alloc: Global,
    owners: &Owners,
    extents: &[u64],
    left: &Reference,
    reads: &[Reference],
    from: u32,
    to: u32,
) -> Result<Vec<Spot>, OutOfMemory>
    requires from { from < owners.now.nodes }
    requires to { to < owners.now.nodes }
    requires tuples { product extents.now ≤ 2 ^ 32 }
    requires left { IsAlongAxes (length extents.now) (named_of left.now) }
    requires reads { All (IsAlongAxes (length extents.now)) (names_of reads.now) }
    ensures { IfOk result (λ spots. (part : Part)
        → IsPartOf extents.now (names_of reads.now)
        (λ node t. computes_left owners.now.layouts node (in_bounds owners.now.layouts (named_spot extents.now t (named_of left.now)))) part
        → map spot_of spots.items ≡ message owners.now.nodes owners.now.layouts part from to) }
{
    let pair = Pair {
        owners,
        takers: owners,
        extents,
        left,
        from,
        to,
    };
    let mut spots = pair.found(alloc, reads)?;
    arrange_list(&mut spots);
    Ok(spots)
}

impl<'a> Pair<'a> {
    /// What is sent of what these references name, in any order.
    fn found(&self, alloc: Global, reads: &[Reference]) -> Result<Vec<Spot>, OutOfMemory>
        requires left { IsAlongAxes (length self.now.extents.now) (named_of self.now.left.now) }
        requires reads { All (IsAlongAxes (length self.now.extents.now)) (names_of reads.now) }
        ensures { IfOk result (λ spots. AreSent self.now.owners.now.nodes self.now.owners.now.layouts self.now.extents.now (names_of reads.now)
            (computes_named self.now.takers.now.layouts self.now.extents.now (named_of self.now.left.now) self.now.to) self.now.from self.now.to (map spot_of spots.items)) }
    {
        if !are_few(self.extents) || !is_inside(self.left, self.extents) {
            return self.walked(alloc, reads);
        }
        if !lies(self.takers, self.extents, self.left)
            || !all_lie(self.owners, self.extents, reads)
        {
            return self.walked(alloc, reads);
        }
        self.owners.are_dealt();
        let spots = self.sent(alloc, reads)?;
        Ok(spots)
    }
}

/// Whether the places of each axis are numbers of 32 bits.
pub(crate) fn are_few(extents: &[u64]) -> bool
    ensures { IsTrue result → All (λ n. n ≤ 2 ^ 32) extents.now }
{
    for extent in extents {
        if *extent > 4294967296 {
            return false;
        }
    }
    true
}
