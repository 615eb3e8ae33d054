//! The tuples at which a node may take something.

ghost use Rattle.std.specs.Prelude.{◌≡◌, ℕ, Bool, All, IfOk, IfSome, List, length, map, option_map, take, true};
ghost use Rattle.std.specs.List.{list_all};
ghost use Rattle.axis_products.specs.Products.{each, passing};
ghost use Rattle.courses.specs.References.{IsAlongAxes};
ghost use Rattle.course_forms.specs.Views.{named_of, names_of};
ghost use Rattle.axis_products.specs.Tests.{holds};
ghost use Rattle.visited_tuples.specs.Own.{IsOwn};
ghost use Rattle.visited_tuples.specs.Owned.{Lies, owns_if_named};
ghost use Rattle.visited_tuples.specs.Visited.{IsTaking};

use crate::lists::{common_lists, copies};
use crate::own::Own;
use crate::owning::Owning;
use crate::visitor::{Lists, Visitor};
use axis_walks::{passing_below, tuples_beyond};
use course_forms::Reference;
use hpf_base::OutOfMemory;
use owned_places::{Holding, is_inside};
use std::alloc::Global;

impl<'a> Visitor<'a> {
    /// The tuples at which the node may take something: those that it computes, but for those with the places at which it owns all that is read.
    /// Where it owns all elements of the rows, these are none, and no place is looked at.
    pub(crate) fn taking(
        &self,
        alloc: Global,
        reads: &[Reference],
        own: &Own,
    ) -> Result<Vec<u32>, OutOfMemory>
        requires lie { All (Lies self.now.extents.now self.now.owners.now.layouts) (names_of reads.now) }
        requires own { (who : (node tuple : ℕ) → Bool) × IsOwn who self.now.owners.now.nodes self.now.extents.now self.now.id
            (option_map (λ lists. map (λ v. v.items) lists.items) own.now.lists) own.now.beside.items }
        ensures { (computes : (node tuple : ℕ) → Bool)
            → IsOwn computes self.now.owners.now.nodes self.now.extents.now self.now.id (option_map (λ lists. map (λ v. v.items) lists.items) own.now.lists) own.now.beside.items
            → IfOk result (λ tuples. IsTaking computes self.now.owners.now.layouts self.now.extents.now (names_of reads.now) self.now.id tuples.items) }
    {
        if self.owns_rows(reads) {
            return Ok(Vec::new(alloc));
        }
        passing_below();
        let Some(lists) = &own.lists else {
            return Ok(Vec::new(alloc));
        };
        match self.interior(alloc, reads, lists)? {
            Some(inner) => {
                let beyond = tuples_beyond(alloc, self.extents, lists, &inner)?;
                Ok(beyond)
            }
            None => {
                let all = self.tuples(alloc, &own.lists)?;
                Ok(all)
            }
        }
    }

    /// Of lists of places those at which the node owns all that is read and in bounds; None where of a read it owns nothing.
    fn interior(
        &self,
        alloc: Global,
        reads: &[Reference],
        lists: &[Vec<u32>],
    ) -> Result<Option<Lists>, OutOfMemory>
        requires lie { All (Lies self.now.extents.now self.now.owners.now.layouts) (names_of reads.now) }
        requires lists { (a : ℕ → ℕ → Bool) × (map (λ v. v.items) lists.now ≡ passing a 0 self.now.extents.now) }
        ensures { IfOk result (λ inner. IfSome inner (λ inner. (b : ℕ → ℕ → Bool) × (map (λ v. v.items) inner.items ≡ passing b 0 self.now.extents.now)
            × ((places : List ℕ) → each b 0 places ≡ true
            → list_all (λ r. holds (owns_if_named self.now.owners.now.layouts self.now.id r) places) (names_of reads.now) ≡ true))) }
    {
        let mut inner = copies(alloc, lists)?;
        for read in reads {
            let Some(kept) = self.owned_if_named(alloc, read, &inner)? else {
                return Ok(None);
            };
            inner = kept;
        }
        Ok(Some(inner))
    }

    /// Of lists of places those at which the node owns what a reference names, if that is in bounds; None where it owns nothing of it.
    fn owned_if_named(
        &self,
        alloc: Global,
        reference: &Reference,
        lists: &[Vec<u32>],
    ) -> Result<Option<Lists>, OutOfMemory>
        requires lies { Lies self.now.extents.now self.now.owners.now.layouts (named_of reference.now) }
        requires lists { (a : ℕ → ℕ → Bool) × (map (λ v. v.items) lists.now ≡ passing a 0 self.now.extents.now) }
        ensures { (a : ℕ → ℕ → Bool) → map (λ v. v.items) lists.now ≡ passing a 0 self.now.extents.now
            → IfOk result (λ r. IfSome r (λ kept. (b : ℕ → ℕ → Bool) × (map (λ v. v.items) kept.items ≡ passing b 0 self.now.extents.now)
            × ((places : List ℕ) → each b 0 places ≡ true → (each a 0 places ≡ true)
            × (holds (owns_if_named self.now.owners.now.layouts self.now.id (named_of reference.now)) places ≡ true)))) }
    {
        if is_inside(reference, self.extents) {
            self.common_owned(alloc, reference, lists)
        } else {
            self.kept_owned(alloc, reference, lists)
        }
    }

    /// The same of a reference that is in bounds at each place: those at which the node owns what it names.
    fn common_owned(
        &self,
        alloc: Global,
        reference: &Reference,
        lists: &[Vec<u32>],
    ) -> Result<Option<Lists>, OutOfMemory>
        requires lies { Lies self.now.extents.now self.now.owners.now.layouts (named_of reference.now) }
        requires lists { (a : ℕ → ℕ → Bool) × (map (λ v. v.items) lists.now ≡ passing a 0 self.now.extents.now) }
        ensures { (a : ℕ → ℕ → Bool) → map (λ v. v.items) lists.now ≡ passing a 0 self.now.extents.now
            → IfOk result (λ r. IfSome r (λ kept. (b : ℕ → ℕ → Bool) × (map (λ v. v.items) kept.items ≡ passing b 0 self.now.extents.now)
            × ((places : List ℕ) → each b 0 places ≡ true → (each a 0 places ≡ true)
            × (holds (owns_if_named self.now.owners.now.layouts self.now.id (named_of reference.now)) places ≡ true)))) }
    {
        let Some(owned) = self.places(alloc, reference)? else {
            return Ok(None);
        };
        let kept = common_lists(alloc, lists, &owned)?;
        Ok(Some(kept))
    }

    /// The same of any reference, place by place.
    fn kept_owned(
        &self,
        alloc: Global,
        reference: &Reference,
        lists: &[Vec<u32>],
    ) -> Result<Option<Lists>, OutOfMemory>
        requires lies { Lies self.now.extents.now self.now.owners.now.layouts (named_of reference.now) }
        ensures { (a : ℕ → ℕ → Bool) → map (λ v. v.items) lists.now ≡ passing a 0 self.now.extents.now
            → IfOk result (λ r. IfSome r (λ kept. (b : ℕ → ℕ → Bool) × (map (λ v. v.items) kept.items ≡ passing b 0 self.now.extents.now)
            × ((places : List ℕ) → each b 0 places ≡ true → (each a 0 places ≡ true)
            × (holds (owns_if_named self.now.owners.now.layouts self.now.id (named_of reference.now)) places ≡ true)))) }
    {
        let Some(table) = self.owners.table(reference.row) else {
            return Ok(None);
        };
        let Some(holding) = Holding::new(table, self.id, reference) else {
            return Ok(None);
        };
        let owning = Owning {
            holding: &holding,
            reference,
        };
        let kept = owning.kept(alloc, lists)?;
        Ok(Some(kept))
    }
}
