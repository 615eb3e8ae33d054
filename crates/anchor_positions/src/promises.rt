//! Laws of anchors by positions.

ghost use Rattle.std.specs.Prelude.{◌≡◌, ℕ, ◌<◌, List, map, ℤ, Option, Ok, true};
ghost use Rattle.std.specs.List.{AllByRecursion, list_all};
ghost use Rattle.array_meaning.specs.Expressions.{value};
ghost use Rattle.array_meaning.specs.Forall.{Linear, index_extents, indices_at, is_index_in_limits, is_linear_in_limits, linear};
ghost use Rattle.array_meaning.specs.Sections.{extents, positions, subscripts_at};
ghost use Rattle.array_meaning.specs.State.{State};
ghost use Rattle.array_meaning.specs.Terms.{Term};
ghost use Rattle.array_meaning.specs.declared.sections.Selection.{Selection};
ghost use Rattle.array_meaning.specs.declared.sections.Sequence.{Sequence};
ghost use Rattle.aligned_copies.specs.Beside.{subscript_by};
ghost use Rattle.machine_steps.specs.CopyLayout.{copy_shape};
ghost use Rattle.machine_steps.specs.Layout.{element_index};
ghost use Rattle.machine_steps.specs.Space.{space_count};
ghost use Rattle.code_meaning.specs.Anchors.{by_linear, by_positions};
ghost use Rattle.anchor_positions.specs.Subscripts.{HasEnds, IsLinearIn, linear_at, section_value};

/// At each tuple of a space of indices, which are in the limits of a FORALL, a linear form by the positions is the form at the values of the
/// indices. So a subscript that is linear by its form, and in the limits, is the value of its expression.
pub fn subscripts_by_positions()
    ensures forms { (axes : List Sequence) (x : Linear) (at : ℕ) → list_all is_index_in_limits axes ≡ true → at < space_count (index_extents axes)
        → subscript_by (element_index (copy_shape (index_extents axes)) at) (by_linear axes x.index x.factor x.offset)
        ≡ linear_at (indices_at axes at) x.index x.factor x.offset }
    ensures values { (s : State) (axes : List Sequence) (k : Option ℕ) (t : Term) (at : ℕ) (v : ℤ) → IsLinearIn k t → list_all is_index_in_limits axes ≡ true
        → is_linear_in_limits (linear s t) ≡ true → at < space_count (index_extents axes) → value (indices_at axes at) s t ≡ Ok v
        → subscript_by (element_index (copy_shape (index_extents axes)) at) (by_linear axes (linear s t).index (linear s t).factor (linear s t).offset) ≡ v }
{}

/// At each tuple of a section whose triplets begin and end with numbers of 64 bits its subscripts by the positions are those of its element,
/// each triplet along the next axis.
pub fn triplets_by_positions()
    ensures { (axes : List Sequence) (ds : List Selection) (at : ℕ) → AllByRecursion HasEnds ds → at < space_count (extents ds)
        → map (subscript_by (element_index (copy_shape (extents ds)) at)) (by_positions axes 0 (map section_value ds))
        ≡ subscripts_at ds (positions (extents ds) at) }
{}
