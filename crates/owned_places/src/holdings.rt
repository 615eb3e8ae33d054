//! What a node owns of what a reference names, an axis at a time.

ghost use Rattle.std.specs.Prelude.{◌≡◌, ◌^◌, ℕ, ◌<◌, ◌≤◌, false, true, List, IfNone, IfOk, IfSome, length};
ghost use Rattle.axis_products.specs.Products.{places_at};
ghost use Rattle.axis_products.specs.Tests.{holds};
ghost use Rattle.courses.specs.Owners.{held_test};
ghost use Rattle.courses.specs.Subscripts.{AxesBelow};
ghost use Rattle.course_forms.specs.Views.{named_of};
ghost use Rattle.owned_places.specs.Candidates.{AreCandidates};
ghost use Rattle.owned_places.specs.Holdings.{test_of};
ghost use Rattle.owned_places.specs.Owned.{LiesAs};

use crate::candidates::{Candidates, candidates_on};
use crate::holding::Holding;
use crate::owned::is_ever_held;
use crate::passing::are_held_at;
use course_forms::Reference;
use hpf_base::OutOfMemory;
use owner_tables::OwnerTable;
use std::alloc::Global;

impl<'a> Holding<'a> {
    /// What a node owns of what a reference names in a row; None where that is nothing. It takes no memory.
    pub fn new(table: &'a OwnerTable, node: u32, reference: &'a Reference) -> Option<Holding<'a>>
        requires node { node < table.now.nodes }
        requires lies { LiesAs table.now.layout (named_of reference.now) }
        ensures some { IfSome result (λ h. (test_of h ≡ held_test (named_of reference.now) table.now.layout node) × ((test_of h).always ≡ true)) }
        ensures none { IfNone result ((extents : List ℕ) → AxesBelow (length extents) (named_of reference.now).courses
            → (t : ℕ) → holds (held_test (named_of reference.now) table.now.layout node) (places_at extents t) ≡ false) }
    {
        let mapping = table.mapping();
        let dims = reference.dims.as_slice();
        let courses = reference.courses.as_slice();
        if table.size() == 0 || !is_ever_held(dims, mapping, node, courses) {
            return None;
        }
        Some(Holding {
            dims,
            mapping,
            node,
            courses,
        })
    }

    /// Whether a place of an axis passes.
    pub fn owns_at(&self, axis: usize, place: u32) -> bool
        ensures { result ≡ (test_of self.now).at axis place }
    {
        are_held_at(
            self.dims,
            self.mapping,
            self.node,
            self.courses,
            axis,
            place,
        )
    }

    /// Places of an axis, among them all that pass.
    pub fn candidates(
        &self,
        alloc: Global,
        axis: usize,
        extent: u64,
    ) -> Result<Candidates, OutOfMemory>
        requires { extent ≤ 2 ^ 32 }
        ensures { IfOk result (AreCandidates ((test_of self.now).at axis) extent) }
    {
        let candidates = candidates_on(
            alloc,
            self.dims,
            self.mapping,
            self.node,
            self.courses,
            axis,
            extent,
        )?;
        Ok(candidates)
    }
}
