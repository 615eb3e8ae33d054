//! Index tuples and the shapes that they range over.

ghost use Rattle.std.specs.Prelude.{◌≡◌, ◌≤◌, ◌↔◌, length, IsSome, IfSome};

use crate::limits::MAX_RANK;
use smallvec::SmallVec;
use std::alloc::Global;
use std::marker::Model;

/// The subscripts of an element, the first dimension first. It needs no memory. Contracts see the list.
#[derive(Drop)]
pub struct Index {
    numbers: SmallVec<i64, MAX_RANK>,
}

impl Model for Index {
    ghost use Rattle.std.specs.Prelude.{◌≤◌, List, ℤ, length};
    ghost use Rattle.hpf_base.specs.declared.limits.TheConstants.{MAX_RANK};

    ghost Value = { List ℤ };

    ghost view = { λ i. i.numbers.items };

    ghost invariant = { λ i. length i.numbers.items ≤ MAX_RANK };
}

impl Index {
    /// The tuple of these numbers, in their order; None exactly where they are more than 7. It takes no memory.
    pub fn new(alloc: Global, numbers: &[i64]) -> Option<Index>
        ensures some { IsSome result ↔ (length numbers.now ≤ MAX_RANK) }
        ensures value { IfSome result (λ index. index ≡ numbers.now) }
    {
        if numbers.len() > MAX_RANK {
            return None;
        }
        match SmallVec::from_slice(alloc, numbers) {
            Ok(numbers) => Some(Index { numbers }),
            Err(_) => unreachable!(),
        }
    }

    /// The numbers, at most 7, in order. It takes no memory.
    pub fn numbers(&self) -> &[i64]
        ensures value { result.now ≡ self.now }
        ensures short { length self.now ≤ MAX_RANK }
    {
        self.numbers.as_slice()
    }

    /// The same numbers once more. It takes no memory.
    pub fn copy(&self, alloc: Global) -> Index
        ensures { result ≡ self.now }
    {
        match Index::new(alloc, self.numbers()) {
            Some(copy) => copy,
            None => unreachable!(),
        }
    }
}

/// The bounds of an array: in each dimension its lower bound and its extent, the first dimension first.
#[derive(Drop)]
pub struct Shape {
    pub lower: Index,
    pub extent: Index,
}

impl Shape {
    /// The same bounds once more. It takes no memory.
    pub fn copy(&self, alloc: Global) -> Shape
        ensures { result ≡ self.now }
    {
        Shape {
            lower: self.lower.copy(alloc),
            extent: self.extent.copy(alloc),
        }
    }
}
