//! The values of elements.

ghost use Rattle.std.specs.Prelude.{◌≡◌, ◌+◌, ◌*◌, ℤ, map, IfOk, IfSome};
ghost use Rattle.std.specs.List.{range_with_len};
ghost use Rattle.storage.specs.Storage.{Spot};
ghost use Rattle.storage.specs.Spots.{spot_of};

use hpf_base::OutOfMemory;
use std::alloc::Global;
use storage::Spot;

/// Where the values of elements come from.
pub trait Elements {
    ghost get: { Self → Spot → ℤ };

    /// The value of an element.
    fn value(&self, spot: Spot) -> i64
        ensures { result ≡ get self.now (spot_of spot) };

    /// The values of so many elements of a row, each so many positions after the one before. None is no answer: they are asked for one by
    /// one then.
    fn line(
        &self,
        alloc: Global,
        first: Spot,
        step: usize,
        count: usize,
    ) -> Result<Option<Vec<i64>>, OutOfMemory>
        ensures { IfOk result (λ p. IfSome p (λ vs. vs.items ≡ map (λ k. get self.now (record { row = first.row; at = first.at + k * step })) (range_with_len 0 count))) };
}
