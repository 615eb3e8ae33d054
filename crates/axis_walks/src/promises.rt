//! Laws on lists of places.

ghost use Rattle.std.specs.Prelude.{ℕ, Bool, List};
ghost use Rattle.axis_products.specs.Products.{passing};
ghost use Rattle.axis_walks.specs.Lists.{AreBelow};

/// The places that pass are below the extents.
pub fn passing_below()
    ensures { (test : ℕ → ℕ → Bool) (axis : ℕ) (extents : List ℕ) → AreBelow extents (passing test axis extents) }
{}
