//! Places at which a node owns what a reference names, or which are out of bounds.

ghost use Rattle.std.specs.Prelude.{◌≡◌, ℕ, ◌&&◌, Bool, IfOk, List, filter, map};
ghost use Rattle.axis_products.specs.Products.{passing};
ghost use Rattle.part_visits.specs.Owning.{owns_if_at};

use crate::owning::Owning;
use hpf_base::OutOfMemory;
use owned_places::is_inside_at;
use std::alloc::Global;

impl<'a> Owning<'a> {
    /// Of the places of each axis those at which the node owns what is named, or which are out of bounds.
    pub(crate) fn kept(
        &self,
        alloc: Global,
        lists: &[Vec<u32>],
    ) -> Result<Vec<Vec<u32>>, OutOfMemory>
        ensures { (a : ℕ → ℕ → Bool) (extents : List ℕ) → map (λ v. v.items) lists.now ≡ passing a 0 extents
            → IfOk result (λ kept. map (λ v. v.items) kept.items ≡ passing (λ axis place. a axis place && owns_if_at self.now axis place) 0 extents) }
    {
        let mut kept = Vec::new(alloc);
        for axis in 0..lists.len() {
            let places = self.kept_on(alloc, axis, &lists[axis])?;
            kept.push(places)?;
        }
        Ok(kept)
    }

    /// The same of one axis.
    fn kept_on(&self, alloc: Global, axis: usize, places: &[u32]) -> Result<Vec<u32>, OutOfMemory>
        ensures { IfOk result (λ kept. kept.items ≡ filter (owns_if_at self.now axis) places.now) }
    {
        let mut kept = places.to_vec(alloc)?;
        self.keep(axis, &mut kept);
        Ok(kept)
    }

    /// Keeps those of an axis.
    fn keep(&self, axis: usize, places: &mut Vec<u32>)
        ensures { places.new.items ≡ filter (owns_if_at self.now axis) places.old.items }
    {
        places.retain(|place| self.owns_if_at(axis, *place));
    }

    /// Whether a place is so.
    fn owns_if_at(&self, axis: usize, place: u32) -> bool
        ensures { result ≡ owns_if_at self.now axis place }
    {
        !is_inside_at(self.reference, axis, place) || self.holding.owns_at(axis, place)
    }
}
