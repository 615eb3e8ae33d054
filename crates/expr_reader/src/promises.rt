//! What holds of the definitions.

ghost use Rattle.std.specs.Prelude.{◌≡◌};
ghost use Rattle.syntax_tree.specs.Expression.{Expression};
ghost use Rattle.syntax_tree.specs.Spelling.{spelling, IsFormed};

/// At most one well-formed expression has a spelling (Fortran 95, 7.1).
pub fn one_expression()
    ensures { (a b : Expression) → IsFormed a → IsFormed b → spelling a ≡ spelling b → a ≡ b }
{}
