//! The law of transformations as assignments of elements.

ghost use Rattle.std.specs.Prelude.{◌≡◌, ◌≢◌, ℕ, length, ℤ, Ok, true};
ghost use Rattle.hpf_base.specs.ElementOrder.{product};
ghost use Rattle.array_meaning.specs.Dims.{AreDims};
ghost use Rattle.array_meaning.specs.Forall.{assign_forall};
ghost use Rattle.array_meaning.specs.State.{State, array, store_all};
ghost use Rattle.array_meaning.specs.Statements.{WholeArray, Transformation, Transposition, PrefixSum};
ghost use Rattle.array_meaning.specs.Terms.{Number};
ghost use Rattle.array_meaning.specs.Transformations.{extents_of, has_shape, transformed};
ghost use Rattle.statement_trail.specs.TransformedElements.{axes_of, indices_from, source_element, turn_of};

/// Where the shapes fit, the assignment of elements, at each tuple of indices along the bounds of the target, has no fault and leaves the state in
/// which the whole array is transformed: for a shift by k places, and for a transpose of an array with two dimensions. A prefix sum is no such
/// assignment.
pub fn transformed_elements()
    ensures { (s : State) (x y : WholeArray) (how : Transformation) (k : ℤ) (line : ℕ) → (array s x.array).dims ≡ x.dims
        → (array s y.array).dims ≡ y.dims → AreDims x.dims → AreDims y.dims → how ≢ PrefixSum → has_shape x y how ≡ true → length y.dims ≡ length x.dims
        → (how ≡ Transposition → length x.dims ≡ 2)
        → assign_forall (axes_of x) (product (extents_of x)) (λ t. true) (record {
          line = line;
          array = x.array;
          subscripts = indices_from 0 x.dims;
          right = source_element x y how (Number (turn_of x k));
        }) s
        ≡ Ok (store_all s x.array (transformed x y how k s)) }
{}
