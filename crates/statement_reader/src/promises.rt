//! What holds of the definitions.

ghost use Rattle.std.specs.Prelude.{◌≡◌};
ghost use Rattle.statement_reader.specs.Forms.{StatementForm, IsForm, form_kept, form_printed};

/// A tree keeps the same of two well-formed statements that have one spelling, however deep their expressions are.
pub fn one_form()
    ensures { (a b : StatementForm) → IsForm a → IsForm b → form_printed a ≡ form_printed b → form_kept a ≡ form_kept b }
{}
