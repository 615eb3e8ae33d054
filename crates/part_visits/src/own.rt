//! The tuples that a node computes, by the places of each axis.

ghost use Rattle.std.specs.Prelude.{◌≡◌, ℕ, ◌<◌, ◌==◌, ◌∷◌, [], All, IfOk, IfSome, Some, filter, length, map, option_map, slice_get, true};
ghost use Rattle.std.specs.List.{range_with_len};
ghost use Rattle.machine_steps.specs.Layout.{Layout, first, in_bounds, owned_by, size_of};
ghost use Rattle.machine_steps.specs.Message.{computes_left, least_or_zero};
ghost use Rattle.axis_products.specs.Tests.{ArePlaces, Test};
ghost use Rattle.courses.specs.References.{IsAlongAxes, named_spot};
ghost use Rattle.course_forms.specs.Views.{named_of, names_of};
ghost use Rattle.visited_tuples.specs.Own.{IsOwn, listed_tuples};
ghost use Rattle.visited_tuples.specs.Owned.{Lies};

use crate::lists::all_places;
use crate::sharing::leads;
use crate::visitor::{Lists, Visitor};
use axis_walks::{passing_below, tuples_of};
use course_forms::Reference;
use hpf_base::OutOfMemory;
use owned_places::is_inside;
use std::alloc::Global;
use tuple_numbers::{Tuples, tuples_of_places};

/// What a node computes.
#[derive(Drop)]
pub(crate) struct Own {
    /// The places on each axis of the tuples that it computes; None where it computes none.
    pub(crate) lists: Option<Lists>,
    /// Nodes, among them all that compute a tuple which it computes.
    pub(crate) beside: Vec<u32>,
}

impl<'a> Visitor<'a> {
    /// What the node computes where the owners of what is assigned do; None where that isn't in bounds at each tuple.
    pub(crate) fn own_of_assigned(
        &self,
        alloc: Global,
        l: &Reference,
    ) -> Result<Option<Own>, OutOfMemory>
        requires { IsAlongAxes (length self.now.extents.now) (named_of l.now) }
        ensures own { IfOk result (λ own. IfSome own (λ o. IsOwn
            (λ node t. computes_left self.now.owners.now.layouts node (in_bounds self.now.owners.now.layouts (named_spot self.now.extents.now t (named_of l.now))))
            self.now.owners.now.nodes self.now.extents.now self.now.id (option_map (λ lists. map (λ v. v.items) lists.items) o.lists) o.beside.items)) }
        ensures lies { IfOk result (λ own. IfSome own (λ o. Lies self.now.extents.now self.now.owners.now.layouts (named_of l.now))) }
    {
        if !is_inside(l, self.extents) || !self.lies(l) {
            return Ok(None);
        }
        let lists = self.places(alloc, l)?;
        let beside = self.sharers(alloc, l.row)?;
        Ok(Some(Own { lists, beside }))
    }

    /// The nodes that own what the node owns of a row, ascending; none where there is no such row.
    fn sharers(&self, alloc: Global, row: usize) -> Result<Vec<u32>, OutOfMemory>
        ensures { IfOk result (λ sharers. (layout : Layout) → slice_get self.now.owners.now.layouts row ≡ Some layout
            → (at : ℕ) → at < size_of layout → owned_by layout self.now.id at ≡ true
            → filter (λ other. owned_by layout other at) (range_with_len 0 self.now.owners.now.nodes) ≡ sharers.items) }
    {
        match self.owners.table(row) {
            Some(table) => Ok(table.sharers(self.id).to_vec(alloc)?),
            None => Ok(Vec::new(alloc)),
        }
    }

    /// What the node computes where the least owner of what is read does; None where that isn't in bounds at each tuple.
    pub(crate) fn own_of_read(
        &self,
        alloc: Global,
        r: &Reference,
    ) -> Result<Option<Own>, OutOfMemory>
        requires { IsAlongAxes (length self.now.extents.now) (named_of r.now) }
        ensures { IfOk result (λ own. IfSome own (λ o. IsOwn
            (λ node t. least_or_zero self.now.owners.now.nodes self.now.owners.now.layouts
            (in_bounds self.now.owners.now.layouts (named_spot self.now.extents.now t (named_of r.now))) == node)
            self.now.owners.now.nodes self.now.extents.now self.now.id (option_map (λ lists. map (λ v. v.items) lists.items) o.lists) o.beside.items)) }
    {
        if !is_inside(r, self.extents) || !self.lies(r) {
            return Ok(None);
        }
        self.owners.are_dealt();
        let beside = self.alone(alloc)?;
        if !self.leads(r.row) {
            return Ok(Some(Own {
                lists: None,
                beside,
            }));
        }
        let lists = self.places(alloc, r)?;
        Ok(Some(Own { lists, beside }))
    }

    /// Whether the node has the least number of those that own what it owns of a row; false where there is no such row.
    pub(crate) fn leads(&self, row: usize) -> bool
        ensures { (layout : Layout) → slice_get self.now.owners.now.layouts row ≡ Some layout
            → (at : ℕ) → at < size_of layout → owned_by layout self.now.id at ≡ true
            → (first (λ other. owned_by layout other at) 0 self.now.owners.now.nodes == self.now.id) ≡ result }
    {
        match self.owners.table(row) {
            Some(table) => leads(table, self.id),
            None => false,
        }
    }

    /// The node alone.
    fn alone(&self, alloc: Global) -> Result<Vec<u32>, OutOfMemory>
        ensures { IfOk result (λ alone. alone.items ≡ self.now.id ∷ []) }
    {
        let mut alone = Vec::new(alloc);
        alone.push(self.id)?;
        Ok(alone)
    }

    /// What the node computes where node 0 computes all.
    pub(crate) fn own_of_root(&self, alloc: Global) -> Result<Own, OutOfMemory>
        ensures { IfOk result (λ o. IsOwn (λ node t. node == 0)
            self.now.owners.now.nodes self.now.extents.now self.now.id (option_map (λ lists. map (λ v. v.items) lists.items) o.lists) o.beside.items) }
    {
        let beside = self.alone(alloc)?;
        if self.id != 0 {
            return Ok(Own {
                lists: None,
                beside,
            });
        }
        let places = all_places(alloc, self.extents)?;
        Ok(Own {
            lists: Some(places),
            beside,
        })
    }

    /// The tuples with the places of lists; none where there are no lists.
    pub(crate) fn tuples(
        &self,
        alloc: Global,
        lists: &Option<Lists>,
    ) -> Result<Vec<u32>, OutOfMemory>
        requires { (c : Test) × ArePlaces c self.now.extents.now (option_map (λ lists. map (λ v. v.items) lists.items) lists.now) }
        ensures { IfOk result (λ tuples. tuples.items ≡ listed_tuples self.now.extents.now (option_map (λ lists. map (λ v. v.items) lists.items) lists.now)) }
    {
        passing_below();
        match lists {
            Some(lists) => tuples_of(alloc, self.extents, lists),
            None => Ok(Vec::new(alloc)),
        }
    }

    /// The same tuples in a short form.
    pub(crate) fn short_tuples(
        &self,
        alloc: Global,
        lists: &Option<Lists>,
    ) -> Result<Tuples, OutOfMemory>
        requires { (c : Test) × ArePlaces c self.now.extents.now (option_map (λ lists. map (λ v. v.items) lists.items) lists.now) }
        ensures { IfOk result (λ tuples. tuples ≡ listed_tuples self.now.extents.now (option_map (λ lists. map (λ v. v.items) lists.items) lists.now)) }
    {
        match lists {
            Some(lists) => tuples_of_places(alloc, self.extents, lists),
            None => Ok(Tuples::below(alloc, 0)),
        }
    }
}
