//! A law on the mappings of a program.

ghost use Rattle.std.specs.Prelude.{◌≡◌, ℕ, List, length, map};
ghost use Rattle.syntax_tree.specs.MainProgram.{MainProgram};
ghost use Rattle.name_table.specs.Entries.{entries};
ghost use Rattle.distribution_rules.specs.Setting.{arrays};
ghost use Rattle.directive_check.specs.ProgramMaps.{start_maps};

/// Each declared array has one mapping at the start: there are as many as arrays, in the order of their declarations.
pub fn starts_of_arrays()
    ensures many { (grid : List ℕ) (p : MainProgram) → length (start_maps grid p) ≡ length (arrays (entries p)) }
    ensures names { (grid : List ℕ) (p : MainProgram) → map (λ m. m.name) (start_maps grid p) ≡ map (λ o. o.name) (arrays (entries p)) }
{}
