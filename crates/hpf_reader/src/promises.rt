//! Laws of texts and programs (Fortran 95, 2 and 3).

ghost use Rattle.std.specs.Prelude.{◌≡◌, ◌↔◌, ℕ, List};
ghost use Rattle.hpf_base.specs.Refusal.{NoBreach};
ghost use Rattle.hpf_base.specs.declared.refusal.Refusal.{Refusal};
ghost use Rattle.syntax_tree.specs.MainProgram.{MainProgram};
ghost use Rattle.construct_reader.specs.SpelledProgram.{SpelledProgram};
ghost use Rattle.fixed_lines.specs.FixedBreaches.{IsFixedBreach};
ghost use Rattle.fixed_lines.specs.FreeText.{free_text};
ghost use Rattle.hpf_reader.specs.ProgramText.{HasNoBreach, IsMeantBy, IsProgramText, IsRefused};
ghost use Rattle.hpf_reader.specs.declared.source_form.SourceForm.{SourceForm};
ghost use Rattle.hpf_reader.specs.declared.source_form.SourceForm.TheVariants.{Fixed, Free};

use fixed_lines::free_lines_are_fixed;

/// A text spells one program at most.
pub fn one_tree()
    ensures { (form : SourceForm) (text : List ℕ) (p q : SpelledProgram) → IsProgramText form text p → IsProgramText form text q → p ≡ q }
{}

/// A text means one program at most.
pub fn one_program()
    ensures { (form : SourceForm) (text : List ℕ) (p q : MainProgram) → IsMeantBy form text p → IsMeantBy form text q → p ≡ q }
{}

/// A text in the fixed source form whose lines break no rule means what its free text means, and is refused for what that is refused for.
pub fn fixed_as_free()
    ensures fine { (text : List ℕ) → NoBreach (IsFixedBreach text) → HasNoBreach Fixed text ↔ HasNoBreach Free (free_text text) }
    ensures meant { (text : List ℕ) (p : MainProgram) → NoBreach (IsFixedBreach text) → IsMeantBy Fixed text p ↔ IsMeantBy Free (free_text text) p }
    ensures refused { (text : List ℕ) (r : Refusal) → NoBreach (IsFixedBreach text) → IsRefused Fixed text r ↔ IsRefused Free (free_text text) r }
{
    free_lines_are_fixed()
}
