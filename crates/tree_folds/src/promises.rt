//! Laws of what nodes join, as functions that do nothing.

ghost use Rattle.std.specs.Prelude.{◌≡◌, ◌≤◌, ◌<◌, ◌*◌, ◌∷◌, [], ℕ, ℤ, List, Option, None, Some, option_map, filter_map, fold, map};
ghost use Rattle.std.specs.List.{range_with_len};
ghost use Rattle.array_meaning.specs.Faults.{Fault};
ghost use Rattle.machine_steps.specs.Machine.{Kept, earlier};
ghost use Rattle.machine_steps.specs.Node.{Positioned, join_after, kept_values, values_kept, later, option_values, positioned_values, values_option, values_positioned};
ghost use Rattle.code_meaning.specs.FaultValues.{fault_values};
ghost use Rattle.op_tables.specs.Joins.{join, unit};
ghost use Rattle.op_tables.specs.Operators.{is_true};
ghost use Rattle.reduction_tree.specs.Tree.{levels, after_rounds};
ghost use Rattle.tree_folds.specs.FaultKeys.{HaveOwnKeys, fault_keys};
ghost use Rattle.tree_folds.specs.Optional.{join_present};
ghost use Rattle.tree_folds.specs.Passing.{AreSpelled, after_passing};
ghost use Rattle.tree_folds.specs.Places.{HaveOwnPositions, places};
ghost use Rattle.tree_steps.specs.Absorbed.{joined_values};

use crate::optional::Optional;
use crate::truths::{AllTruths, AnyTruth};
use op_tables::Join;
use reduction_tree::{
    BitAnd, BitOr, BitXor, Fold, Greatest, LastValue, Least, LeastFault, Product, Sum,
};
use tree_steps::Joining;

/// What two numbers come to in a round is their join, and what is missing is neutral on both sides. Each join is the fold of that name, over
/// numbers that may be missing.
pub fn law_of_numbers()
    ensures both { (j : Join) (a b : ℤ) → joined_values (Joining.Options j) (a ∷ []) (b ∷ []) ≡ join j a b ∷ [] }
    ensures none_before { (j : Join) (b : Option ℤ) → joined_values (Joining.Options j) [] (option_values b) ≡ option_values b }
    ensures none_after { (j : Join) (a : Option ℤ) → joined_values (Joining.Options j) (option_values a) [] ≡ option_values a }
    ensures sum { (a b : Option ℤ) → joined_values (Joining.Options Join.Sum) (option_values a) (option_values b)
        ≡ option_values (⟦<Optional<Sum> as Fold>⟧.joined a b) }
    ensures product { (a b : Option ℤ) → joined_values (Joining.Options Join.Product) (option_values a) (option_values b)
        ≡ option_values (⟦<Optional<Product> as Fold>⟧.joined a b) }
    ensures greatest { (a b : Option ℤ) → joined_values (Joining.Options Join.Greatest) (option_values a) (option_values b)
        ≡ option_values (⟦<Optional<Greatest> as Fold>⟧.joined a b) }
    ensures least { (a b : Option ℤ) → joined_values (Joining.Options Join.Least) (option_values a) (option_values b)
        ≡ option_values (⟦<Optional<Least> as Fold>⟧.joined a b) }
    ensures bits_of_both { (a b : Option ℤ) → joined_values (Joining.Options Join.And) (option_values a) (option_values b)
        ≡ option_values (⟦<Optional<BitAnd> as Fold>⟧.joined a b) }
    ensures bits_of_either { (a b : Option ℤ) → joined_values (Joining.Options Join.Or) (option_values a) (option_values b)
        ≡ option_values (⟦<Optional<BitOr> as Fold>⟧.joined a b) }
    ensures bits_apart { (a b : Option ℤ) → joined_values (Joining.Options Join.ExclusiveOr) (option_values a) (option_values b)
        ≡ option_values (⟦<Optional<BitXor> as Fold>⟧.joined a b) }
{}

/// What two numbers come to in a round is true where one of them is, for ANY, and where both are, for ALL.
pub fn law_of_truths()
    ensures any { (a b : Option ℤ) → option_map is_true (values_option (joined_values (Joining.Options Join.Any) (option_values a) (option_values b)))
        ≡ ⟦<Optional<AnyTruth> as Fold>⟧.joined (option_map is_true a) (option_map is_true b) }
    ensures all { (a b : Option ℤ) → option_map is_true (values_option (joined_values (Joining.Options Join.All) (option_values a) (option_values b)))
        ≡ ⟦<Optional<AllTruths> as Fold>⟧.joined (option_map is_true a) (option_map is_true b) }
{}

/// Let each node begin with a number or none. After the rounds up node 0 has the numbers of all nodes joined in the order of the nodes, and
/// after the rounds down every node has them; nothing, where none has one. With what `law_of_numbers` says that is `fold_tree` over the fold of
/// the join's name. The value of the reduction, which is that after the unit, is the plain fold of those numbers that are there.
pub fn law_of_number_trees()
    ensures up { (j : Join) (nodes : ℕ) (items : ℕ → Option ℤ) → 0 < nodes
        → after_rounds (joined_values (Joining.Options j)) nodes (λ p. option_values (items p)) (levels nodes) 0
        ≡ option_values (fold (join_present (join j)) None (map items (range_with_len 0 nodes))) }
    ensures down { (j : Join) (nodes : ℕ) (items : ℕ → Option ℤ) (p : ℕ) → p < nodes
        → after_rounds (joined_values (Joining.Options j)) nodes (λ p. option_values (items p)) (2 * levels nodes) p
        ≡ option_values (fold (join_present (join j)) None (map items (range_with_len 0 nodes))) }
    ensures reduced { (j : Join) (xs : List (Option ℤ)) → join_after (join j) (unit j) (fold (join_present (join j)) None xs)
        ≡ fold (join j) (unit j) (filter_map (λ x. x) xs) }
{}

/// Kept faults go round as their numbers. Of two the one is kept that `LeastFault` keeps of their keys, whatever numbers the faults are given
/// of their own: one key has one fault, so these numbers are never asked. With one key the first is kept.
pub fn law_of_faults()
    ensures goes_round { (a b : Option (Kept Fault)) → joined_values Joining.Kept (kept_values fault_values a) (kept_values fault_values b)
        ≡ kept_values fault_values (earlier a b) }
    ensures least { (number : Kept Fault → ℕ) (a b : Option (Kept Fault)) → HaveOwnKeys a b
        → fault_keys number (earlier a b) ≡ ⟦<LeastFault as Fold>⟧.joined (fault_keys number a) (fault_keys number b) }
    ensures first { (x y : Kept Fault) → x.tuple ≡ y.tuple → x.part ≡ y.part → earlier (Some x) (Some y) ≡ Some x }
{}

/// Let each node begin with a kept fault or none, and let one key have one fault. What a node has after some rounds is what some node began
/// with. After the rounds up its key at node 0 is the first of the keys of all nodes, and after the rounds down it is so on every node.
pub fn law_of_fault_trees()
    ensures held { (nodes : ℕ) (items : ℕ → Option (Kept Fault)) (k p : ℕ) → p < nodes → (q : ℕ) × (q < nodes)
        × (after_rounds (joined_values Joining.Kept) nodes (λ p. kept_values fault_values (items p)) k p ≡ kept_values fault_values (items q)) }
    ensures up { (number : Kept Fault → ℕ) (nodes : ℕ) (items : ℕ → Option (Kept Fault))
        → ((p q : ℕ) → p < nodes → q < nodes → HaveOwnKeys (items p) (items q)) → 0 < nodes
        → fault_keys number (values_kept fault_values (after_rounds (joined_values Joining.Kept) nodes (λ p. kept_values fault_values (items p)) (levels nodes) 0))
        ≡ fold ⟦<LeastFault as Fold>⟧.joined ⟦<LeastFault as Fold>⟧.neutral (map (λ p. fault_keys number (items p)) (range_with_len 0 nodes)) }
    ensures down { (number : Kept Fault → ℕ) (nodes : ℕ) (items : ℕ → Option (Kept Fault))
        → ((p q : ℕ) → p < nodes → q < nodes → HaveOwnKeys (items p) (items q)) → (p : ℕ) → p < nodes
        → fault_keys number (values_kept fault_values (after_rounds (joined_values Joining.Kept) nodes (λ p. kept_values fault_values (items p)) (2 * levels nodes) p))
        ≡ fold ⟦<LeastFault as Fold>⟧.joined ⟦<LeastFault as Fold>⟧.neutral (map (λ p. fault_keys number (items p)) (range_with_len 0 nodes)) }
{}

/// Values with their positions go round as two numbers. Of two the one is kept that `LastValue` keeps: one position has one value, so the
/// values are never asked. With one position the first is kept.
pub fn law_of_positions()
    ensures goes_round { (a b : Option Positioned) → joined_values Joining.Later (positioned_values a) (positioned_values b) ≡ positioned_values (later a b) }
    ensures last { (a b : Option Positioned) → HaveOwnPositions a b → places (later a b) ≡ ⟦<LastValue as Fold>⟧.joined (places a) (places b) }
    ensures first { (x y : Positioned) → x.at ≡ y.at → later (Some x) (Some y) ≡ Some x }
{}

/// Let each node begin with a value at a position or none, and let one position have one value. After the rounds up node 0 has the one at the
/// last position of all nodes, and after the rounds down every node has it.
pub fn law_of_position_trees()
    ensures up { (nodes : ℕ) (items : ℕ → Option Positioned) → ((p q : ℕ) → p < nodes → q < nodes → HaveOwnPositions (items p) (items q)) → 0 < nodes
        → places (values_positioned (after_rounds (joined_values Joining.Later) nodes (λ p. positioned_values (items p)) (levels nodes) 0))
        ≡ fold ⟦<LastValue as Fold>⟧.joined ⟦<LastValue as Fold>⟧.neutral (map (λ p. places (items p)) (range_with_len 0 nodes)) }
    ensures down { (nodes : ℕ) (items : ℕ → Option Positioned) → ((p q : ℕ) → p < nodes → q < nodes → HaveOwnPositions (items p) (items q)) → (p : ℕ) → p < nodes
        → places (values_positioned (after_rounds (joined_values Joining.Later) nodes (λ p. positioned_values (items p)) (2 * levels nodes) p))
        ≡ fold ⟦<LastValue as Fold>⟧.joined ⟦<LastValue as Fold>⟧.neutral (map (λ p. places (items p)) (range_with_len 0 nodes)) }
{}

/// Let each node begin with numbers that stand for something, or for nothing, and join in each round what it receives, as `absorbed` does. Then
/// each has after any rounds what the laws of trees say.
pub fn law_of_passing()
    ensures rounds { (joining : Joining) (nodes : ℕ) (items : ℕ → List ℤ) → ((p : ℕ) → p < nodes → AreSpelled joining (items p))
        → (k p : ℕ) → k ≤ 2 * levels nodes → p < nodes → after_passing joining nodes items k p ≡ after_rounds (joined_values joining) nodes items k p }
    ensures numbers { (j : Join) (a : Option ℤ) → AreSpelled (Joining.Options j) (option_values a) }
    ensures faults { (a : Option (Kept Fault)) → AreSpelled Joining.Kept (kept_values fault_values a) }
    ensures positions { (a : Option Positioned) → AreSpelled Joining.Later (positioned_values a) }
{}
