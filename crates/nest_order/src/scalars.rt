//! One scalar against the copies that iterations have of it.

ghost use Rattle.std.specs.Prelude.{◌≡◌, ℕ, ◌⊎◌, ◌<◌, ◌≤◌, List, length, Option, Ok, Err};
ghost use Rattle.storage.specs.Storage.{Storage, Spot, read};
ghost use Rattle.nest_order.specs.Items.{Items};
ghost use Rattle.nest_order.specs.Listed.{Names};
ghost use Rattle.nest_order.specs.LastValue.{note_scalar};
ghost use Rattle.storage.specs.Parted.{parted, kept, NoneKept, IsLeastKept};
ghost use Rattle.nest_order.specs.Nest.{Interpretation, nest_effects, nest_act, plain_loops, IsParallel};
ghost use Rattle.nest_order.specs.Stores.{observed_loops};
ghost use Rattle.nest_syntax.specs.NestKinds.{Kind, New, Assigned};
ghost use Rattle.nest_order.specs.Copies.{scalar_at, InIteration, with_copies, copied, items_in};
ghost use Rattle.nest_order.specs.Scalars.{Reducing, MayCopy, CopiesAgree, EndWithCopies, PartedAgrees};

/// One scalar against its copies. In Fortran's loops each scalar is one object through all iterations. Let each NEW
/// variable be assigned before it is read in an iteration, let no two iterations touch another scalar that one of them
/// assigns, and let REDUCTION variables stand in reduction statements alone. Then the loops in which each iteration has
/// copies end as Fortran's loops do: with the same fault, or with the same arrays, and each REDUCTION variable is its
/// entry value joined with the fold of its copies.
pub fn one_scalar_or_copies<A, C, F>()
    ensures { (one : Interpretation A C F) (kinds : ℕ → Kind) (reads : Names A C Spot) (written : A → List Spot)
        (reducing : A → Option (Reducing F)) (start : Storage) (n : ℕ) (items : ℕ → Items A C)
        → MayCopy one kinds reads written reducing start n items
        → EndWithCopies kinds start (plain_loops one items start n)
        (plain_loops (copied kinds one) (λ i. items_in i (items i)) (with_copies kinds n start) n) }
{}

/// A scalar that isn't a REDUCTION variable is after Fortran's loops what the stores to its copies make of it, one
/// iteration after another: the value of the last iteration that assigned it, or its entry value.
pub fn scalar_by_its_copies<A, C, F>()
    ensures { (one : Interpretation A C F) (kinds : ℕ → Kind) (reads : Names A C Spot) (written : A → List Spot)
        (reducing : A → Option (Reducing F)) (start : Storage) (n : ℕ) (items : ℕ → Items A C) (row : ℕ) (m : Storage)
        → MayCopy one kinds reads written reducing start n items
        → (kinds row ≡ New) ⊎ (kinds row ≡ Assigned)
        → plain_loops one items start n ≡ Ok m
        → (copies : Storage)
        × (observed_loops (copied kinds one) (note_scalar row) (λ i. items_in i (items i)) (with_copies kinds n start)
        (read start (scalar_at row)) n
        ≡ Ok (record { storage = copies; noted_so_far = read m (scalar_at row) }))
        × CopiesAgree kinds start m copies }
{}

/// The law of fission for Fortran's loops. Let the scalars of a nest have copies as above, and let no iteration with its
/// copies write what is listed for another one. Where the parted order over the copies keeps no fault, Fortran's loops end
/// with its arrays. Each REDUCTION variable is then its entry value joined with the fold of its copies, and each other
/// scalar is the copy of the last iteration that assigned it, or its entry value. Else the loops end with the fault of the
/// least key.
pub fn law_of_fortran_nests<A, C, F>()
    ensures finishes { (one : Interpretation A C F) (kinds : ℕ → Kind) (reads : Names A C Spot) (written : A → List Spot)
        (reducing : A → Option (Reducing F)) (start : Storage) (n : ℕ) (items : ℕ → Items A C)
        (names : Names (InIteration A) (InIteration C) Spot) (writes : InIteration A → List Spot) (conditions parts : ℕ)
        → MayCopy one kinds reads written reducing start n items
        → IsParallel (copied kinds one) names writes (with_copies kinds n start) conditions n (λ i. items_in i (items i))
        → ((i : ℕ) → i < n → length (nest_effects (copied kinds one) conditions (λ x. items_in x (items x)) i) ≤ parts)
        → let act = nest_act (copied kinds one) conditions (λ i. items_in i (items i)) in
        let copies = with_copies kinds n start in
        NoneKept act copies n parts
        → (m : Storage)
        × (plain_loops one items start n ≡ Ok m)
        × PartedAgrees kinds conditions (kept act copies n) parts n start m (parted act copies n parts) }
    ensures faults { (one : Interpretation A C F) (kinds : ℕ → Kind) (reads : Names A C Spot) (written : A → List Spot)
        (reducing : A → Option (Reducing F)) (start : Storage) (n : ℕ) (items : ℕ → Items A C)
        (names : Names (InIteration A) (InIteration C) Spot) (writes : InIteration A → List Spot) (conditions parts : ℕ)
        (i j : ℕ) (fault : F)
        → MayCopy one kinds reads written reducing start n items
        → IsParallel (copied kinds one) names writes (with_copies kinds n start) conditions n (λ x. items_in x (items x))
        → ((x : ℕ) → x < n → length (nest_effects (copied kinds one) conditions (λ y. items_in y (items y)) x) ≤ parts)
        → IsLeastKept (nest_act (copied kinds one) conditions (λ x. items_in x (items x))) (with_copies kinds n start) n parts i j fault
        → plain_loops one items start n ≡ Err fault }
{}
