//! The names and the scalar expressions of programs that break no rule.

ghost use Rattle.std.specs.List.{AllByRecursion};
ghost use Rattle.syntax_tree.specs.MainProgram.{MainProgram};
ghost use Rattle.statement_walk.specs.Heads.{all_heads};
ghost use Rattle.name_table.specs.Entries.{entries};
ghost use Rattle.name_table.specs.Resolved.{HasNoBreach};
ghost use Rattle.array_meaning.specs.Resolution.{resolved_block};
ghost use Rattle.found_names.specs.FoundNames.{IsFoundStatement};
ghost use Rattle.found_names.specs.Inquiries.{HasAnswers};
ghost use Rattle.found_names.specs.Scalars.{BlockAlone, HaveDimensions};

use name_table::all_are_known;

/// Each name in the statements of a program that breaks no rule of names, types and ranks is found among the declared ones, in expressions
/// as a number or as numbers, and each left side is a variable: of a WHERE a section, of a FORALL an element. So no assignment is left out,
/// and no name stands for the first one because it isn't there.
pub fn names_are_found()
    ensures { (p : MainProgram) → HasNoBreach p → AllByRecursion (λ h. IsFoundStatement (entries p) h.what) (all_heads p.body) }
{}

/// SIZE, LBOUND and UBOUND have a value wherever they stand in the statements of such a program: what is asked is a dimension of an array,
/// and the number of the dimension is a constant.
pub fn inquiries_have_values()
    ensures { (p : MainProgram) → HasNoBreach p → AllByRecursion (λ h. HasAnswers (entries p) h.what) (all_heads p.body) }
{
    all_are_known();
}

/// Where the resolved statements of such a program ask one value, no section stands but under a reduction, and an index only in its FORALL.
/// That each array has a dimension, as it has in every text, is a premise: one without any would be a section and have the rank 0.
pub fn scalars_stand_alone()
    ensures { (p : MainProgram) → HasNoBreach p → HaveDimensions (entries p) → BlockAlone (resolved_block (entries p) p.body) }
{
    all_are_known();
}
