//! Nests that break no rule.

ghost use Rattle.std.specs.Prelude.{◌≡◌, ℕ, List, [], ◌∷◌, ◌++◌};
ghost use Rattle.std.specs.List.{AllByRecursion};
ghost use Rattle.hpf_base.specs.FirstBreach.{Among};
ghost use Rattle.hpf_base.specs.Refusal.{NoBreach};
ghost use Rattle.syntax_tree.specs.MainProgram.{MainProgram};
ghost use Rattle.syntax_tree.specs.Statement as syntax;
ghost use Rattle.syntax_tree.specs.Statement.{Axis, Independent};
ghost use Rattle.expression_rules.specs.Symbols.{Name};
ghost use Rattle.statement_walk.specs.Heads.{heads};
ghost use Rattle.name_table.specs.declared.names.Entry.{Entry};
ghost use Rattle.name_table.specs.Entries.{entries};
ghost use Rattle.name_table.specs.NameRules as name_rules;
ghost use Rattle.name_table.specs.Resolved.{HasNoBreach};
ghost use Rattle.body_check.specs.BodyRules.{body_breaches};
ghost use Rattle.array_meaning.specs.Resolution.{resolved_block};
ghost use Rattle.fitting_states.specs.FittingStates.{BlockFits};
ghost use Rattle.nest_items.specs.BlockForms.{BlockHasForms};
ghost use Rattle.nest_check.specs.NestRules.{nest_breaches};
ghost use Rattle.nest_standing.specs.Named.{IsScalar, IsNamed};
ghost use Rattle.nest_standing.specs.KeptNests.{nest_of, StepsAre, FitsNest, IsKeptNest};

/// A nest that breaks no rule of nests and has no loop too many, whose index is a scalar and whose statements keep the rules of names and types inside
/// the loops of these indices round it, is a nest by its form once it is resolved.
pub fn kept_nests()
    ensures { (es : List Entry) (ys : List Name) (line : ℕ) (m : Independent) (axis : Axis) (b : syntax.Block)
        → name_rules.nest_breaches (nest_of line m axis b) ≡ [] → nest_breaches es (nest_of line m axis b) ≡ [] → IsScalar es axis.index
        → AllByRecursion (IsNamed es) (heads (ys ++ axis.index ∷ []) b)
        → StepsAre es → FitsNest es b → IsKeptNest es m axis b }
{}

/// Each nest of a program that breaks no rule is a nest by its form once it is resolved.
pub fn programs_have_forms()
    ensures { (p : MainProgram) → HasNoBreach p → NoBreach (Among (body_breaches (entries p) p.body))
        → BlockFits (resolved_block (entries p) p.body) → BlockHasForms (resolved_block (entries p) p.body) }
{}
