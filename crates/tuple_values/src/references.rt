//! What parallel statements name at the tuples of their spaces.

ghost use Rattle.std.specs.Prelude.{◌≡◌, ◌<◌, ◌≤◌, ◌++◌, option_map, IfOk, IfSome, Some, true};
ghost use Rattle.array_meaning.specs.declared.limits.TheConstants.{MAX_TUPLES};
ghost use Rattle.hpf_base.specs.ElementOrder.{product};
ghost use Rattle.courses.specs.References.{all_names, copy_names, when_names};
ghost use Rattle.courses.specs.TurnedNames.{all_turned_names};
ghost use Rattle.course_forms.specs.Views.{named_of, names_of};
ghost use Rattle.tuple_values.specs.Naming.{indices_of, left_of, left_name, names_by};
ghost use Rattle.tuple_values.specs.NamedElements.{AreInOrder, AreReferences};
ghost use Rattle.tuple_values.specs.Views.{statement};

use crate::names::{
    copy_references, index_courses, left_reference, right_references, turned_references,
    when_references,
};
use crate::naming::{Indices, Naming, naming_over};
use crate::statement::ParallelStatement;
use course_forms::Reference;
use hpf_base::OutOfMemory;
use std::alloc::Global;

/// The extents of a space, and what is named at its tuples: what is assigned, where something is, and what is read. Of a statement they are
/// what `AreReferences` says.
#[derive(Drop)]
pub struct References {
    pub extents: Vec<u64>,
    pub left: Option<Reference>,
    pub reads: Vec<Reference>,
    /// Whether there is one reference for each read, in order; where a subscript goes round a dimension, two stand for one.
    pub in_order: bool,
}

/// What is named at the tuples of a space.
#[derive(Drop)]
struct Names {
    left: Option<Reference>,
    reads: Vec<Reference>,
    in_order: bool,
}

/// What is read there.
#[derive(Drop)]
struct ReadNames {
    reads: Vec<Reference>,
    in_order: bool,
}

impl<'a> ParallelStatement<'a> {
    /// What is named at the tuples, by courses. None is no answer: where a space has no tuples, and where a subscript may wrap, isn't linear in
    /// one index and doesn't go round a dimension, or is one of too few or too many.
    pub fn references(&self) -> Result<Option<References>, OutOfMemory>
        ensures named { IfOk result (λ r. IfSome r (λ rs. AreReferences (statement self.now) rs.extents.items (option_map named_of rs.left) (names_of rs.reads.items))) }
        ensures order { IfOk result (λ r. IfSome r (λ rs. rs.in_order ≡ true → AreInOrder (statement self.now) rs.extents.items (names_of rs.reads.items))) }
    {
        let alloc = *self.space.extents.allocator();
        if self.space.count == 0 {
            return Ok(None);
        }
        let Some(extents) = small_extents(alloc, &self.space.extents)? else {
            return Ok(None);
        };
        let Some(indices) = index_courses(alloc, &extents, &self.space.indices)? else {
            return Ok(None);
        };
        match self.names(&extents, &indices)? {
            None => Ok(None),
            Some(names) => Ok(Some(References {
                extents,
                left: names.left,
                reads: names.reads,
                in_order: names.in_order,
            })),
        }
    }

    /// What is named over a space of these extents whose indices have these courses.
    fn names(&self, extents: &[u64], indices: &Indices) -> Result<Option<Names>, OutOfMemory>
        requires some { 0 < product extents.now }
        requires few { product extents.now ≤ MAX_TUPLES }
        ensures left { let w = statement self.now in IfOk result (λ r. IfSome r (λ names.
            left_name w.shapes w.slots extents.now (indices_of indices.now) w.target ≡ Some (option_map named_of names.left))) }
        ensures reads { let w = statement self.now in IfOk result (λ r. IfSome r (λ names.
            names_by names.in_order w.shapes w.slots extents.now (indices_of indices.now) w.whens w.copies w.form ≡ Some (names_of names.reads.items))) }
    {
        let alloc = *self.space.extents.allocator();
        let n = naming_over(alloc, self.shapes, self.slots, extents, indices);
        let Some(left) = left_reference(&n, &self.target)? else {
            return Ok(None);
        };
        match self.read_names(&n)? {
            None => Ok(None),
            Some(names) => Ok(Some(Names {
                left: left.reference,
                reads: names.reads,
                in_order: names.in_order,
            })),
        }
    }

    /// What is read.
    fn read_names(&self, n: &Naming<'_>) -> Result<Option<ReadNames>, OutOfMemory>
        ensures { let w = statement self.now in IfOk result (λ r. IfSome r (λ names.
            names_by names.in_order n.now.shapes.now n.now.slots.now n.now.extents.now (indices_of n.now.indices.now) w.whens w.copies w.form
            ≡ Some (names_of names.reads.items))) }
    {
        if let Some(reads) = self.read_references(n)? {
            return Ok(Some(ReadNames {
                reads,
                in_order: true,
            }));
        }
        match self.turned_references(n)? {
            None => Ok(None),
            Some(reads) => Ok(Some(ReadNames {
                reads,
                in_order: false,
            })),
        }
    }

    /// A reference for each read.
    fn read_references(&self, n: &Naming<'_>) -> Result<Option<Vec<Reference>>, OutOfMemory>
        ensures { let w = statement self.now in IfOk result (λ r. IfSome r (λ reads.
            all_names n.now.shapes.now n.now.slots.now n.now.extents.now (indices_of n.now.indices.now) w.whens w.copies w.form ≡ Some (names_of reads.items))) }
    {
        let mut reads = self.copy_references(n)?;
        if right_references(n, &self.right, &mut reads)? {
            return Ok(Some(reads));
        }
        Ok(None)
    }

    /// References for what is read where what is evaluated goes round a dimension.
    fn turned_references(&self, n: &Naming<'_>) -> Result<Option<Vec<Reference>>, OutOfMemory>
        ensures { let w = statement self.now in IfOk result (λ r. IfSome r (λ reads.
            all_turned_names n.now.shapes.now n.now.slots.now n.now.extents.now (indices_of n.now.indices.now) w.whens w.copies w.form
            ≡ Some (names_of reads.items))) }
    {
        let mut reads = self.copy_references(n)?;
        if turned_references(n, &self.right, &mut reads)? {
            return Ok(Some(reads));
        }
        Ok(None)
    }

    /// The copies that are read, those of masks first.
    fn copy_references(&self, n: &Naming<'_>) -> Result<Vec<Reference>, OutOfMemory>
        ensures { let w = statement self.now in IfOk result (λ rs. names_of rs.items
            ≡ when_names n.now.extents.now w.whens ++ copy_names n.now.extents.now w.copies) }
    {
        let mut reads = Vec::new(n.alloc);
        when_references(n, self.whens, &mut reads)?;
        copy_references(n, self.copies, &mut reads)?;
        Ok(reads)
    }
}

/// The extents in 64 bits, where all fit.
fn small_extents(alloc: Global, extents: &[u128]) -> Result<Option<Vec<u64>>, OutOfMemory>
    ensures { IfOk result (λ r. IfSome r (λ ns. ns.items ≡ extents.now)) }
{
    let mut ns = Vec::new(alloc);
    for extent in extents {
        match u64::try_from(*extent) {
            Err(_) => return Ok(None),
            Ok(n) => ns.push(n)?,
        }
    }
    Ok(Some(ns))
}
