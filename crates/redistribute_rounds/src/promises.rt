//! Laws of rounds, as functions that do nothing.

ghost use Rattle.std.specs.Prelude.{◌≢◌, ◌≤◌, ℕ, List, [], All, length, map};
ghost use Rattle.std.specs.List.{AllPairs};
ghost use Rattle.letters.specs.declared.pair.Pair.{Pair};
ghost use Rattle.round_color.specs.Coloring.{degree};
ghost use Rattle.round_color.specs.Table.{ends};
ghost use Rattle.machine_steps.specs.Rounds.{color_rounds};
ghost use Rattle.redistribute_rounds.specs.Rounds.{AreLegal, IsBetween};

/// In the rounds of the colours each pair stands once, and in each of them a node sends at most one letter and takes at
/// most one.
pub fn law_of_legal_rounds()
    ensures { (nodes : ℕ) (pairs : List Pair) → All (IsBetween nodes) pairs → AllPairs (λ one other. one ≢ other) pairs → AreLegal pairs (color_rounds nodes pairs) }
{}

/// No rounds of which this holds are fewer than the letters that one node sends, or takes.
pub fn law_of_fewest_rounds()
    ensures { (nodes : ℕ) (pairs : List Pair) (rounds : List (List Pair)) → AreLegal pairs rounds → degree nodes (map ends pairs) ≤ length rounds }
{}

/// None of the rounds of the colours is empty.
pub fn law_of_full_rounds()
    ensures { (nodes : ℕ) (pairs : List Pair) → All (IsBetween nodes) pairs → AllPairs (λ one other. one ≢ other) pairs
        → All (λ round. round ≢ []) (color_rounds nodes pairs) }
{}
