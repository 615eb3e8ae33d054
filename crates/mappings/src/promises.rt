//! The law of equal sizes, as a function that does nothing.

ghost use Rattle.std.specs.Prelude.{◌≡◌, ℕ, ◌≤◌, List, All};
ghost use Rattle.mappings.specs.declared.mapping.Form.TheVariants.{Block, Gen};
ghost use Rattle.mappings.specs.declared.mapping.Line.{Line};
ghost use Rattle.mappings.specs.Mapping.{IsLine};
ghost use Rattle.mappings.specs.Owner.{coordinate, coordinate_under};

/// Where all sizes of a dimension under GEN_BLOCK are m, each of its positions has the coordinate that it has under BLOCK(m) (HPF 2.0,
/// DISTRIBUTE and approved extensions).
pub fn equal_sizes_are_blocks()
    ensures { (line : Line) (sizes : List ℕ) (m j : ℕ) → IsLine line → line.form ≡ Gen sizes → All (λ n. n ≡ m) sizes → 1 ≤ m
        → 1 ≤ j → j ≤ line.extent → coordinate line j ≡ coordinate_under (Block m) line.procs j }
{}
