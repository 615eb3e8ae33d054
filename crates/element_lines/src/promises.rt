//! The law of elements on a line.

ghost use Rattle.std.specs.Prelude.{◌≡◌, ℕ, ◌+◌, ◌-◌, ◌*◌, ◌<◌, ◌≤◌, List, Some};
ghost use Rattle.expression_rules.specs.declared.dims.Dim.{Dim};
ghost use Rattle.array_meaning.specs.State.{element_place};
ghost use Rattle.element_lines.specs.Progressions.{Progression, members};

/// Where each subscript goes by equal steps, and the first and the last element are in bounds, the places of the elements are told by those of
/// the first two, of which the second isn't before the first.
pub fn elements_on_a_line()
    ensures { (dims : List Dim) (ps : List Progression) (n first second last : ℕ) → 1 < n → element_place dims (members 0 ps) ≡ Some first
        → element_place dims (members 1 ps) ≡ Some second → element_place dims (members (n - 1) ps) ≡ Some last → first ≤ second
        → (k : ℕ) → k < n → element_place dims (members k ps) ≡ Some (first + k * (second - first)) }
{}
