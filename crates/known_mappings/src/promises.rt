//! The mappings of programs that break no rule.

ghost use Rattle.std.specs.Prelude.{ℕ, List};
ghost use Rattle.std.specs.List.{AllByRecursion};
ghost use Rattle.hpf_base.specs.FirstBreach.{Among};
ghost use Rattle.hpf_base.specs.Grid.{IsGrid};
ghost use Rattle.hpf_base.specs.Refusal.{NoBreach};
ghost use Rattle.syntax_tree.specs.MainProgram.{MainProgram};
ghost use Rattle.name_table.specs.Entries.{entries};
ghost use Rattle.name_table.specs.Resolved.{HasNoBreach};
ghost use Rattle.distribution_rules.specs.Setting.{arrays, setting};
ghost use Rattle.directive_check.specs.MappedObjects.{mapped_objects};
ghost use Rattle.directive_check.specs.MappingRules.{mapping_breaches};
ghost use Rattle.directive_check.specs.ProgramMaps.{program_moves, start_maps};
ghost use Rattle.known_mappings.specs.StartMappings.{LiesAtStart};
ghost use Rattle.known_mappings.specs.NewMappings.{AreMovesOf, redistributions};

use name_table::all_are_known;

/// Each array of a program that breaks no rule starts where its directives say: by its own DISTRIBUTE or through the alignments that lead
/// to what it ends at, each of which is known. Only what nothing maps, and what is aligned with such, is replicated.
pub fn start_mappings_are_known()
    ensures { (grid : List ℕ) (p : MainProgram) → IsGrid grid → HasNoBreach p → NoBreach (Among (mapping_breaches grid p))
        → AllByRecursion (λ a. LiesAtStart (setting grid p) (mapped_objects p.declarations) a.name a.start) (start_maps grid p) }
{
    all_are_known();
}

/// Each array that a REDISTRIBUTE moves gets the mapping that it says, of the array itself or of what its alignments end at.
pub fn new_mappings_are_known()
    ensures { (grid : List ℕ) (p : MainProgram) → IsGrid grid → HasNoBreach p → NoBreach (Among (mapping_breaches grid p))
        → AreMovesOf (setting grid p) (mapped_objects p.declarations) (arrays (entries p)) (redistributions p) (program_moves grid p) }
{
    all_are_known();
}
