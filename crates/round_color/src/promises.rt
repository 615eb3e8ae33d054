//! Laws of colourings, as functions that do nothing.

ghost use Rattle.std.specs.Prelude.{◌≢◌, ◌≤◌, ℕ, List, All, length};
ghost use Rattle.std.specs.List.{AllPairs};
ghost use Rattle.round_color.specs.Coloring.{Colors, exchange, degree, colored};
ghost use Rattle.round_color.specs.Proper.{IsEdge, IsFree, IsProper, IsWithin, IsListed, IsExchanged, IsColored, IsColoring};
ghost use Rattle.round_color.specs.Rows.{AreRows};

/// Let two colours be exchanged along the path that begins at an end with the first of them, and let the second be free
/// there. Then no two edges of one colour share an end, as before, and the first colour is free at that end. No path has
/// more edges than have a colour.
pub fn law_of_exchange()
    ensures { (nodes steps : ℕ) (colors : Colors) (node one other : ℕ) (edges : List (ℕ × ℕ)) → IsProper colors → one ≢ other → IsFree colors node other
        → IsWithin nodes colors → IsListed edges colors → length edges ≤ steps
        → IsExchanged colors (exchange nodes steps colors node one other) node one other }
{}

/// Distinct edges all get a colour that is below the greatest number of edges from one node or to one node, and no two edges
/// of one colour share an end.
pub fn law_of_coloring()
    ensures { (nodes : ℕ) (edges : List (ℕ × ℕ)) → All (IsEdge nodes) edges → AllPairs (λ one other. one ≢ other) edges
        → IsColored (degree nodes edges) edges (colored nodes edges) }
{}

/// However edges are coloured so that no two of one colour share an end, there are no fewer colours than the greatest
/// number of edges from one node or to one node.
pub fn law_of_fewest()
    ensures { (nodes limit : ℕ) (edges : List (ℕ × ℕ)) (colors : List ℕ) → IsColoring edges limit colors → degree nodes edges ≤ limit }
{}

/// Small lists of edges have these colours.
pub fn law_of_rows()
    ensures { AreRows }
{}
