//! A small nest on which the laws are seen to be met.

ghost use Rattle.std.specs.Prelude.{◌≡◌, ℕ, ◌<◌, ◌≤◌, List, [], ◌∷◌, length, pos, Ok, Err, false};
ghost use Rattle.storage.specs.Storage.{row_of};
ghost use Rattle.storage.specs.Effect.{Fail};
ghost use Rattle.storage.specs.Parted.{parted, kept, IsLeastKept};
ghost use Rattle.nest_order.specs.Nest.{nest_effects, nest_act, plain_loops, IsParallel};
ghost use Rattle.nest_order.specs.LastValue.{note_scalar, scalar_after, last_value};
ghost use Rattle.nest_order.specs.Stores.{observed_loops};
ghost use Rattle.op_tables.specs.declared.join.Join.TheVariants.{Sum};
ghost use Rattle.op_tables.specs.Joins.{join, unit};
ghost use Rattle.nest_order.specs.Reduction.{folded, copies_of};
ghost use Rattle.nest_order.specs.Reduction.{plain_value, all_assigned};
ghost use Rattle.nest_order.specs.Copies.{copied, items_in, with_copies};
ghost use Rattle.nest_order.specs.Scalars.{ReadsLate, MayCopy};
ghost use Rattle.nest_order.specs.Example.{interpretation, names, spots_written, body};
ghost use Rattle.nest_order.specs.Example.{three, fine, faulty, sums};
ghost use Rattle.nest_order.specs.Example.{kinds, reads, reducing, fine_scalars, body_of_scalars, reads_early};

/// The nest meets the premises of the law of fission at both entries, and an iteration has nine acts.
pub fn example_is_parallel()
    ensures fine { IsParallel interpretation names spots_written fine 4 3 body }
    ensures faulty { IsParallel interpretation names spots_written faulty 4 3 body }
    ensures parts { (i : ℕ) → i < 3 → length (nest_effects interpretation 4 body i) ≤ 9 }
{}

/// Without a fault the parted order ends with the arrays and copies of the plain loops: A divided, X assigned by the
/// first two iterations, and the sums of S. Only the stored conditions differ.
pub fn example_finishes()
    ensures plain { plain_loops interpretation body fine 3
        ≡ Ok (three 6 12 3 ∷ (pos 3 ∷ pos 2 ∷ pos 1 ∷ pos 4 ∷ []) ∷ three 3 2 5 ∷ three 6 4 2
        ∷ three 0 0 0 ∷ three 0 0 0 ∷ []) }
    ensures parted { parted (nest_act interpretation 4 body) fine 3 9
        ≡ three 6 12 3 ∷ (pos 3 ∷ pos 2 ∷ pos 1 ∷ pos 4 ∷ []) ∷ three 3 2 5 ∷ three 6 4 2
        ∷ three 1 1 0 ∷ three 0 0 1 ∷ [] }
{}

/// After the nest X is the copy of iteration 1, the last one that assigned it, and not that of the last iteration.
pub fn example_last_value()
    ensures plain { scalar_after (kept (nest_act interpretation 4 body) fine 3) 2 9 (pos 5) 3 ≡ pos 2 }
    ensures loops { observed_loops interpretation (note_scalar 2) body fine (pos 5) 3
        ≡ Ok (record {
          storage = three 6 12 3 ∷ (pos 3 ∷ pos 2 ∷ pos 1 ∷ pos 4 ∷ []) ∷ three 3 2 5 ∷ three 6 4 2
              ∷ three 0 0 0 ∷ three 0 0 0 ∷ [];
          noted_so_far = pos 2;
        }) }
    ensures copied { last_value (kept (nest_act interpretation 4 body) fine 3) 2 9 (pos 5)
        (parted (nest_act interpretation 4 body) fine 3 9) 3 ≡ pos 2 }
{}

/// After the nest S is its entry value 100 with the fold of its copies.
pub fn example_reduction()
    ensures copies { copies_of (unit Sum) (all_assigned Sum sums)
        ≡ row_of (parted (nest_act interpretation 4 body) fine 3 9) 3 }
    ensures plain { plain_value (pos 100) (all_assigned Sum sums) ≡ pos 112 }
    ensures joined { join Sum (pos 100)
        (folded (join Sum) (unit Sum) (row_of (parted (nest_act interpretation 4 body) fine 3 9) 3))
        ≡ pos 112 }
{}

/// With two faults the plain loops end with that of iteration 0, in act 6. The parted order meets that of iteration 2
/// before, in act 3, and keeps both.
pub fn example_faults()
    ensures plain { plain_loops interpretation body faulty 3 ≡ Err 6 }
    ensures later { kept (nest_act interpretation 4 body) faulty 3 2 3 ≡ Fail 4 }
    ensures least { IsLeastKept (nest_act interpretation 4 body) faulty 3 9 0 6 6 }
{}

/// X and S may have copies. Fortran's loops, with one X and one S, and the loops with copies end as the laws of scalars say:
/// A and B are the same, X is the copy of iteration 1, and S is its entry value 100 with the fold of its copies.
pub fn example_with_scalars()
    ensures may_copy { MayCopy interpretation kinds reads spots_written reducing fine_scalars 3 body_of_scalars }
    ensures scalars { plain_loops interpretation body_of_scalars fine_scalars 3
        ≡ Ok (three 6 12 3 ∷ (pos 3 ∷ pos 2 ∷ pos 1 ∷ pos 4 ∷ []) ∷ (pos 2 ∷ []) ∷ (pos 112 ∷ []) ∷ []) }
    ensures copies { plain_loops (copied kinds interpretation) (λ i. items_in i (body_of_scalars i)) (with_copies kinds 3 fine_scalars) 3
        ≡ Ok (three 6 12 3 ∷ (pos 3 ∷ pos 2 ∷ pos 1 ∷ pos 4 ∷ []) ∷ three 3 2 5 ∷ three 6 4 2 ∷ []) }
{}

/// Where a NEW variable is read before it is assigned, copies don't do what the scalar does: `A(I) = X` and `X = B(I)` leave
/// 5 and 3 in A with one X, and 5 and 5 with a copy for each iteration. Such a nest isn't read late.
pub fn example_reads_early()
    ensures scalars { plain_loops interpretation reads_early fine_scalars 2
        ≡ Ok (three 5 3 12 ∷ (pos 3 ∷ pos 2 ∷ pos 1 ∷ pos 4 ∷ []) ∷ (pos 2 ∷ []) ∷ (pos 100 ∷ []) ∷ []) }
    ensures copies { plain_loops (copied kinds interpretation) (λ i. items_in i (reads_early i)) (with_copies kinds 2 fine_scalars) 2
        ≡ Ok (three 5 5 12 ∷ (pos 3 ∷ pos 2 ∷ pos 1 ∷ pos 4 ∷ []) ∷ (pos 3 ∷ pos 2 ∷ []) ∷ (pos 0 ∷ pos 0 ∷ []) ∷ []) }
    ensures early { ¬ ReadsLate kinds reads spots_written (reads_early 0) (λ row. false) }
{}
