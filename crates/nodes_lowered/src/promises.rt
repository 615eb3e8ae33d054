//! Laws of programs on nodes.

ghost use Rattle.std.specs.Prelude.{◌<◌, ℕ, All, List, ◌≡◌, map};
ghost use Rattle.hpf_base.specs.ElementOrder.{product};
ghost use Rattle.hpf_base.specs.Grid.{IsGrid};
ghost use Rattle.syntax_tree.specs.MainProgram.{MainProgram};
ghost use Rattle.name_table.specs.Entries.{entries};
ghost use Rattle.array_maps.specs.Maps.{IsArrayMap, AreNewMaps};
ghost use Rattle.directive_check.specs.ProgramMaps.{start_maps, program_moves};
ghost use Rattle.accepted_program.specs.Accepted.{KeepsRules};
ghost use Rattle.mappings.specs.declared.mapping.Mapping.{Mapping};
ghost use Rattle.machine_steps.specs.Layout.{Layout};
ghost use Rattle.node_code.specs.Instructions.{NewMapping};
ghost use Rattle.fitting_states.specs.FittingStates.{ProgramFits};
ghost use Rattle.nodes_lowered.specs.LettersOnNodes.{LettersOnNodes};
ghost use Rattle.nodes_lowered.specs.OnNodes.{LieAsDeclared, MovesDealt, program_copies};
ghost use Rattle.nodes_lowered.specs.ProgramLayouts.{program_layouts};
ghost use Rattle.nodes_lowered.specs.ProgramRuns.{RunOnNodes};
ghost use Rattle.nodes_lowered.specs.TrailOnNodes.{TrailOnNodes};
ghost use Rattle.array_maps.specs.declared.maps.Redistribution.{Redistribution};
ghost use Rattle.array_maps.specs.Lines.{moves_at};
ghost use Rattle.code_meaning.specs.Instructions.{remappings};
ghost use Rattle.nodes_lowered.specs.NewMappings.{new_mappings, numbered_at, remapping, program_mappings, program_remaps};

use array_maps::line_moves_are_valid;
use name_table::all_are_known;

/// The arrays of a program lie on as many nodes as a grid has with the mappings that they have at the start, where these are valid: each
/// has the shape of its declaration, and each of its elements an owner. After them there may be any number of copies.
pub fn arrays_lie_as_mapped()
    ensures { (grid : List ℕ) (room : ℕ) (p : MainProgram) → IsGrid grid → All (IsArrayMap (product grid)) (start_maps grid p)
        → LieAsDeclared (product grid) room (entries p) (program_layouts (product grid) room (entries p) (start_maps grid p)) }
{}

/// For every program that keeps the rules of names, ranks and bodies and whose numbers are of 64 bits, every number of nodes, layouts of its arrays by which each element
/// has an owner, and mappings that the REDISTRIBUTE of each line gives, by which each has one too, the nodes that begin with its code are
/// phased, and end as its last nodes in every order of their steps: all have its code, one place, the same slots and the same layouts, by
/// which its arrays lie as at first, with the redistributions that the program reaches; each has the program's first fault with its line,
/// kind and tuple, or is finished with the program's last scalars and its pieces of the last arrays; and node 0 has printed the program's
/// bytes, no other any.
pub fn programs_run_on_nodes()
    ensures { (nodes : ℕ) (p : MainProgram) (maps : List Mapping) (moves : ℕ → List NewMapping) (layouts : List Layout) → 0 < nodes → KeepsRules p → ProgramFits p
        → LieAsDeclared nodes (program_copies p) (entries p) layouts → MovesDealt nodes p maps moves layouts → RunOnNodes nodes p maps moves layouts }
{
    all_are_known();
}

/// On their way to that end these nodes pass the program's trail: for each of its entries all of them come to stand before an instruction that
/// is that entry, with the scalars of that moment, and there the arrays lie as at first, with the redistributions before it.
pub fn trails_on_nodes()
    ensures { (nodes : ℕ) (p : MainProgram) (maps : List Mapping) (moves : ℕ → List NewMapping) (layouts : List Layout) → 0 < nodes → KeepsRules p → ProgramFits p
        → LieAsDeclared nodes (program_copies p) (entries p) layouts → MovesDealt nodes p maps moves layouts → TrailOnNodes nodes p maps moves layouts }
{
    all_are_known();
}

/// All letters of these nodes are known: of each pair they are those of the phases that the steps of the machine with whole arrays say, in
/// order, each with the number of its phase, the pair's next number, and the values of the whole arrays. There are no others.
pub fn letters_on_nodes()
    ensures { (nodes : ℕ) (p : MainProgram) (maps : List Mapping) (moves : ℕ → List NewMapping) (layouts : List Layout) → 0 < nodes → KeepsRules p → ProgramFits p
        → LieAsDeclared nodes (program_copies p) (entries p) layouts → MovesDealt nodes p maps moves layouts → LettersOnNodes nodes p maps moves layouts }
{
    all_are_known();
}

/// What a line moves by numbers is, by the mappings with these numbers, what its redistributions say: each array that they move, by its
/// place, with its new mapping.
pub fn moves_by_number()
    ensures { (places : List ℕ) (moves : List Redistribution) (line : ℕ)
        → remappings (new_mappings moves) (numbered_at places 0 moves line) ≡ map (remapping places) (moves_at moves line) }
{}

/// Where the mappings of a program are valid on a grid, those that its redistributions give arrays give each of their elements an owner.
pub fn accepted_moves_are_dealt()
    ensures { (grid : List ℕ) (room : ℕ) (p : MainProgram) → IsGrid grid → All (IsArrayMap (product grid)) (start_maps grid p)
        → All (λ r. AreNewMaps (product grid) (start_maps grid p) r.maps) (program_moves grid p)
        → MovesDealt (product grid) p (program_mappings grid p) (program_remaps grid p) (program_layouts (product grid) room (entries p) (start_maps grid p)) }
{
    line_moves_are_valid();
}
