//! A node that visits the tuples of a space.

ghost use Rattle.std.specs.Prelude.{◌≡◌, ◌<◌, ◌≤◌, ◌^◌, All, IfOk, length, map, true};
ghost use Rattle.std.specs.Option.{option_map};
ghost use Rattle.hpf_base.specs.ElementOrder.{product};
ghost use Rattle.axis_products.specs.Tests.{ArePlaces};
ghost use Rattle.courses.specs.References.{IsAlongAxes};
ghost use Rattle.course_forms.specs.Views.{named_of, names_of};
ghost use Rattle.visited_tuples.specs.Owned.{Lies, OwnsRow, owns_named};

use course_forms::Reference;
use hpf_base::OutOfMemory;
use owned_places::{is_laid_out, owned_places};
use owner_tables::Owners;
use std::alloc::Global;

/// Lists of places, one an axis, each ascending.
pub(crate) type Lists = Vec<Vec<u32>>;

/// A node, how the rows lie, and the extents of a space of tuples.
#[derive(Drop)]
pub(crate) struct Visitor<'a> {
    pub(crate) owners: &'a Owners,
    pub(crate) extents: &'a [u64],
    pub(crate) id: u32,
    ghost node: { id < owners.now.nodes },
    ghost few: { All (λ n. n ≤ 2 ^ 32) extents.now },
    ghost tuples: { product extents.now ≤ 2 ^ 32 },
}

impl<'a> Visitor<'a> {
    /// Whether the row lies as the reference takes it.
    pub(crate) fn lies(&self, reference: &Reference) -> bool
        requires { IsAlongAxes (length self.now.extents.now) (named_of reference.now) }
        ensures { result ≡ true → Lies self.now.extents.now self.now.owners.now.layouts (named_of reference.now) }
    {
        match self.owners.table(reference.row) {
            Some(table) => is_laid_out(table, reference),
            None => false,
        }
    }

    /// Whether the rows of all lie so.
    pub(crate) fn all_lie(&self, references: &[Reference]) -> bool
        requires { All (IsAlongAxes (length self.now.extents.now)) (names_of references.now) }
        ensures { result ≡ true → All (Lies self.now.extents.now self.now.owners.now.layouts) (names_of references.now) }
    {
        for reference in references {
            if !self.lies(reference) {
                return false;
            }
        }
        true
    }

    /// Whether the node owns all elements of the row.
    fn owns_row(&self, reference: &Reference) -> bool
        requires { Lies self.now.extents.now self.now.owners.now.layouts (named_of reference.now) }
        ensures { result ≡ true → OwnsRow self.now.extents.now self.now.owners.now.layouts self.now.id (named_of reference.now) }
    {
        match self.owners.table(reference.row) {
            Some(table) => table.owned(self.id) == table.size(),
            None => false,
        }
    }

    /// Whether it owns all elements of the rows of all.
    pub(crate) fn owns_rows(&self, references: &[Reference]) -> bool
        requires { All (Lies self.now.extents.now self.now.owners.now.layouts) (names_of references.now) }
        ensures { result ≡ true → All (OwnsRow self.now.extents.now self.now.owners.now.layouts self.now.id) (names_of references.now) }
    {
        for reference in references {
            if !self.owns_row(reference) {
                return false;
            }
        }
        true
    }

    /// The places of each axis at which the node owns what the reference names; None where it owns none of it.
    pub(crate) fn places(
        &self,
        alloc: Global,
        reference: &Reference,
    ) -> Result<Option<Lists>, OutOfMemory>
        requires { Lies self.now.extents.now self.now.owners.now.layouts (named_of reference.now) }
        ensures { IfOk result (λ r. ArePlaces (owns_named self.now.owners.now.layouts self.now.id (named_of reference.now)) self.now.extents.now
            (option_map (λ lists. map (λ v. v.items) lists.items) r)) }
    {
        match self.owners.table(reference.row) {
            Some(table) => owned_places(alloc, table, self.id, reference, self.extents),
            None => Ok(None),
        }
    }
}
