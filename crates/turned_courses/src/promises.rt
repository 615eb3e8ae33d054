//! The law of the subscripts of circular shifts.

ghost use Rattle.std.specs.Prelude.{◌≡◌, ℕ, ℤ, pos, ◌+ℤ◌, ◌-ℤ◌, List, ◌∷◌, Some};
ghost use Rattle.expression_rules.specs.declared.dims.Dim.{Dim};
ghost use Rattle.expression_rules.specs.Dims.{extent};
ghost use Rattle.op_tables.specs.Operators.{wrapped};
ghost use Rattle.array_meaning.specs.Terms.{Scalar};
ghost use Rattle.statement_trail.specs.TransformedElements.{shifted_subscripts};
ghost use Rattle.code_meaning.specs.Flat.{slot};
ghost use Rattle.program_code.specs.ExpressionCode.{index_subs};
ghost use Rattle.courses.specs.StraightForms.{Sloped};
ghost use Rattle.turned_courses.specs.FirstTurned.{first_turned};

/// The first subscript of the source of a circular shift goes round a dimension, with the extent of the target's first dimension.
pub fn shifts_turn()
    ensures { (slots : List ℤ) (s : ℕ) (d e : Dim) (ds es : List Dim)
        → first_turned slots (index_subs (shifted_subscripts (Scalar s) (d ∷ ds) (e ∷ es))) ≡ Some (record {
          lower = e.lower;
          count = pos (extent d);
          above = Sloped 0 (pos 1) (wrapped (wrapped (pos 0 -ℤ d.lower) +ℤ slot slots s));
        }) }
{}
