//! Laws of the rounds of a redistribution.

ghost use Rattle.std.specs.Prelude.{◌≡◌, ℕ, ◌≤◌, true, List, length};
ghost use Rattle.letters.specs.declared.pair.Pair.{Pair};
ghost use Rattle.machine_steps.specs.Agrees.{AreCovered};
ghost use Rattle.machine_steps.specs.Instr.{Remapping};
ghost use Rattle.machine_steps.specs.Layout.{AreOwned, Layout};
ghost use Rattle.machine_steps.specs.Rounds.{moving_pairs, remap_rounds, rounds_on};
ghost use Rattle.redistribute_rounds.specs.Rounds.{AreLegal};

/// Where each element has an owner, each pair of nodes with a message stands in a round.
pub fn rounds_cover()
    ensures { (nodes : ℕ) (new : List Remapping) (layouts : List Layout) → AreOwned nodes layouts → AreCovered nodes new (rounds_on nodes new) layouts }
{}

/// In the rounds of a redistribution each pair of nodes with a message stands once, and in each of them a node sends one letter and takes one at
/// most. No rounds of which this holds are fewer.
pub fn rounds_are_fewest()
    ensures legal { (nodes : ℕ) (old new : List Layout) → AreLegal (moving_pairs nodes old new) (remap_rounds nodes old new) }
    ensures fewest { (nodes : ℕ) (old new : List Layout) (rounds : List (List Pair)) → AreLegal (moving_pairs nodes old new) rounds
        → length (remap_rounds nodes old new) ≤ length rounds }
{}

/// In each round of a redistribution a node sends to one node at most, and takes from one at most.
pub fn one_letter_a_round()
    ensures sent { (nodes : ℕ) (new : List Remapping) (layouts : List Layout) (k p q r : ℕ)
        → (rounds_on nodes new).in_round layouts k p q ≡ true → (rounds_on nodes new).in_round layouts k p r ≡ true → q ≡ r }
    ensures taken { (nodes : ℕ) (new : List Remapping) (layouts : List Layout) (k p q r : ℕ)
        → (rounds_on nodes new).in_round layouts k p r ≡ true → (rounds_on nodes new).in_round layouts k q r ≡ true → p ≡ q }
{}
