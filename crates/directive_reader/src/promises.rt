//! What holds of the definitions.

ghost use Rattle.std.specs.Prelude.{◌≡◌};
ghost use Rattle.directive_reader.specs.Forms.{DirectiveForm, IsForm, form_kept, form_printed};

/// At most one directive has a spelling, apart from what a tree doesn't keep (HPF 2.0, 3, 5.1 and 8.5).
pub fn one_directive()
    ensures { (a b : DirectiveForm) → IsForm a → IsForm b → form_printed a ≡ form_printed b → form_kept a ≡ form_kept b }
{}
