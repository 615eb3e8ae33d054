//! Laws on tuples and the places of axes.

ghost use Rattle.std.specs.Prelude.{◌≡◌, ℕ, ◌<◌, Bool, true, List, filter, length, map};
ghost use Rattle.std.specs.List.{range_with_len};
ghost use Rattle.hpf_base.specs.ElementOrder.{product};
ghost use Rattle.axis_products.specs.Counts.{counts, ranks};
ghost use Rattle.axis_products.specs.Products.{combined, each, number_at, passing, places_at};
ghost use Rattle.axis_products.specs.Tests.{Test, holds, passing_places};

/// The tuple with a number is that of its places.
pub fn numbers_and_places()
    ensures { (extents : List ℕ) (t : ℕ) → t < product extents → number_at extents (places_at extents t) ≡ t }
{}

/// The tuples that pass, in tuple order, are those that the passing places of the axes make.
pub fn passing_tuples()
    ensures { (test : ℕ → ℕ → Bool) (extents : List ℕ)
        → filter (λ t. each test 0 (places_at extents t)) (range_with_len 0 (product extents)) ≡ map (number_at extents) (combined (passing test 0 extents)) }
{}

/// The same where something is asked that is the same at all tuples.
pub fn held_tuples()
    ensures { (test : Test) (extents : List ℕ)
        → filter (λ t. holds test (places_at extents t)) (range_with_len 0 (product extents)) ≡ map (number_at extents) (passing_places test extents) }
{}

/// How many tuples pass before one that passes: the number of its ranks among the counts of the axes.
pub fn passing_before()
    ensures { (test : ℕ → ℕ → Bool) (extents : List ℕ) (t : ℕ) → t < product extents → each test 0 (places_at extents t) ≡ true
        → length (filter (λ n. each test 0 (places_at extents n)) (range_with_len 0 t)) ≡ number_at (counts test 0 extents) (ranks test 0 (places_at extents t)) }
{}
