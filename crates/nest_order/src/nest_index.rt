//! Nested loops as one count of iterations.

ghost use Rattle.std.specs.Prelude.{◌≡◌, ℕ, List, Result, ◌<◌};
ghost use Rattle.nest_order.specs.Turns.{in_turn};
ghost use Rattle.nest_order.specs.NestIndex.{iterations, IsTuple, number_of, tuple_of, nested};

/// The tuples of nested loops and the numbers below their count of iterations are one to one.
pub fn numbered_tuples()
    ensures numbered { (counts turns : List ℕ) → IsTuple counts turns
        → number_of counts turns < iterations counts }
    ensures back_to_tuple { (counts turns : List ℕ) → IsTuple counts turns
        → tuple_of counts (number_of counts turns) ≡ turns }
    ensures tuple { (counts : List ℕ) (number : ℕ) → number < iterations counts
        → IsTuple counts (tuple_of counts number) }
    ensures back_to_number { (counts : List ℕ) (number : ℕ) → number < iterations counts
        → number_of counts (tuple_of counts number) ≡ number }
{}

/// Nested loops run their tuples in the order of the numbers, up to the first fault.
pub fn nested_loops<M, F>()
    ensures { (counts : List ℕ) (body : List ℕ → M → Result M F) (m : M)
        → nested counts body m ≡ in_turn (iterations counts) (λ number. body (tuple_of counts number)) m }
{}
