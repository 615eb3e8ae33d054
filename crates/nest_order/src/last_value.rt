//! The value of a scalar after a nest that assigns it.

ghost use Rattle.std.specs.Prelude.{◌≡◌, ℕ, ℤ, List, ◌<◌, ◌≤◌, length, Ok};
ghost use Rattle.storage.specs.Storage.{Storage, Spot, row_of};
ghost use Rattle.storage.specs.Effect.{Effect};
ghost use Rattle.nest_order.specs.Orders.{Apart};
ghost use Rattle.storage.specs.Parted.{parted, kept, NoneKept};
ghost use Rattle.nest_order.specs.Items.{Items};
ghost use Rattle.nest_order.specs.Listed.{Names};
ghost use Rattle.nest_order.specs.Nest.{Interpretation, nest_effects, nest_act, SameBelow, IsParallel};
ghost use Rattle.nest_order.specs.Stores.{observed_loops};
ghost use Rattle.nest_order.specs.LastValue.{note_scalar, scalar_after, last_value};

/// The last value of a scalar that some iterations assign, each in its copy. Let each store to a copy be a store to one
/// scalar, iteration by iteration. After all iterations it is the copy of the last iteration that assigned it, as
/// the parted order leaves that copy; where no iteration assigns it, it is the entry value.
pub fn last_value_of_scalar<F>()
    ensures { (act : ℕ → ℕ → Storage → Effect F) (start : Storage) (n parts : ℕ)
        (touches : ℕ → List Spot) (row : ℕ) (entry : ℤ)
        → Apart act start n parts touches
        → n ≤ length (row_of start row)
        → scalar_after (kept act start n) row parts entry n
        ≡ last_value (kept act start n) row parts entry (parted act start n parts) n }
{}

/// The last value of such a scalar after the plain loops of a nest, which note each store to a copy as one of the scalar.
pub fn last_value_in_nest<A, C, F>()
    ensures { (interpretation : Interpretation A C F) (names : Names A C Spot)
        (written : A → List Spot) (start : Storage) (conditions n parts : ℕ) (items : ℕ → Items A C)
        (row : ℕ) (entry : ℤ)
        → IsParallel interpretation names written start conditions n items
        → ((i : ℕ) → i < n → length (nest_effects interpretation conditions items i) ≤ parts)
        → row < conditions
        → n ≤ length (row_of start row)
        → NoneKept (nest_act interpretation conditions items) start n parts
        → let act = nest_act interpretation conditions items in
        (m : Storage)
        × (observed_loops interpretation (note_scalar row) items start entry n
        ≡ Ok (record {
          storage = m;
          noted_so_far = last_value (kept act start n) row parts entry (parted act start n parts) n;
        }))
        × SameBelow conditions m (parted act start n parts) }
{}
