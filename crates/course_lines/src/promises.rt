//! The law of what is named along an axis.

ghost use Rattle.std.specs.Prelude.{◌≡◌, ℕ, ◌+◌, ◌-◌, ◌*◌, ◌%◌, ◌<◌, ◌≤◌, ◌∷◌, List, Some};
ghost use Rattle.courses.specs.References.{Named, named_spot};

/// Tuples of one row, each so many places after the one before it: where a reference names elements at the first, the second and the last of them,
/// and the second isn't before the first, then the elements that it names at all of them go by equal steps.
pub fn named_on_a_line()
    ensures { (extent : ℕ) (extents : List ℕ) (r : Named) (row t d n first second last : ℕ) → t % extent + (n - 1) * d < extent → 1 < n
        → named_spot (extent ∷ extents) t r ≡ Some (record { row = row; at = first })
        → named_spot (extent ∷ extents) (t + d) r ≡ Some (record { row = row; at = second })
        → named_spot (extent ∷ extents) (t + (n - 1) * d) r ≡ Some (record { row = row; at = last }) → first ≤ second
        → (k : ℕ) → k < n → named_spot (extent ∷ extents) (t + k * d) r ≡ Some (record { row = row; at = first + k * (second - first) }) }
{}
