//! Programs that break no rule.

ghost use Rattle.std.specs.Prelude.{◌≡◌, ◌≤◌, ◌+◌, ℕ, List, length, Option, true};
ghost use Rattle.hpf_base.specs.FirstBreach.{Among};
ghost use Rattle.hpf_base.specs.Refusal.{NoBreach};
ghost use Rattle.hpf_base.specs.declared.index.Shape.{Shape};
ghost use Rattle.syntax_tree.specs.MainProgram.{MainProgram};
ghost use Rattle.name_table.specs.Entries.{entries};
ghost use Rattle.name_table.specs.NameRules.{name_breaches};
ghost use Rattle.name_table.specs.Resolved.{HasNoBreach};
ghost use Rattle.body_check.specs.BodyRules.{body_breaches};
ghost use Rattle.array_meaning.specs.Execution.{run_block};
ghost use Rattle.array_meaning.specs.Resolution.{resolved_block, initial_state};
ghost use Rattle.statement_trail.specs.Trail.{serial_trail};
ghost use Rattle.machine_steps.specs.Agrees.{IsValidCode, IsValidInstr};
ghost use Rattle.machine_steps.specs.Layout.{AreOwned, IsDealt, IsInBlocks, Layout};
ghost use Rattle.machine_steps.specs.SameLayouts.{is_same_layout};
ghost use Rattle.code_meaning.specs.Beside.{Anchor};
ghost use Rattle.code_meaning.specs.Instructions.{ArrayTable, lies_alone, meaning_of};
ghost use Rattle.node_code.specs.Instructions.{NewMapping, Remap};
ghost use Rattle.code_meaning.specs.ValidCode.{CodeTable, IsValid, IsValidNodeCode};
ghost use Rattle.lowering.specs.Lowered.{IsTable, MachineEnds, MachinePasses, opening};
ghost use Rattle.lowering.specs.Ranks.{AreFewDims, BlockKeepsRanks, declared_shapes};
ghost use Rattle.program_code.specs.StatementCode.{block_copies, block_slots, program_code};
ghost use Rattle.lowered_expressions.specs.WellFormed.{IsWellFormedBlock};
ghost use Rattle.nest_items.specs.BlockForms.{BlockHasForms};
ghost use Rattle.fitting_states.specs.FittingStates.{ProgramFits};

use name_table::all_are_known;

/// The resolved statements of a program that breaks no rule of names and no rule of bodies are well-formed, whatever the types and
/// ranks of its expressions.
pub fn programs_are_well_formed()
    ensures { (p : MainProgram) → NoBreach (Among (name_breaches p)) → NoBreach (Among (body_breaches (entries p) p.body))
        → IsWellFormedBlock (length (entries p)) (resolved_block (entries p) p.body) }
{}

/// The machine with whole arrays ends over the code of a program that breaks no rule of names, ranks and bodies as the program does:
/// with the first fault, its line, kind and tuple, and the bytes that were printed before it, or finished with its bytes, scalars and arrays.
/// After the declared names there is room for as many copies as the code names, or more. Each nest of INDEPENDENT loops is one by its form, and all numbers are of 64 bits.
pub fn accepted_programs_lowered()
    ensures { (p : MainProgram) (room : ℕ) (moves : ℕ → List NewMapping) (table : ArrayTable) (layouts : List Layout)
        → IsTable (initial_state (entries p)) table
        → block_copies (length (entries p)) (resolved_block (entries p) p.body) ≤ room → length layouts ≡ length (entries p) + room
        → HasNoBreach p → NoBreach (Among (body_breaches (entries p) p.body)) → BlockHasForms (resolved_block (entries p) p.body) → ProgramFits p
        → MachineEnds (length (entries p)) table
        (opening (length (entries p)) room moves (resolved_block (entries p) p.body) (initial_state (entries p)) layouts)
        (run_block (resolved_block (entries p) p.body) (initial_state (entries p))) }
{
    programs_keep_ranks();
}

/// It passes, on its way to that end, the trail of the program, entry by entry, and nothing else.
pub fn accepted_trails_lowered()
    ensures { (p : MainProgram) (room : ℕ) (moves : ℕ → List NewMapping) (table : ArrayTable) (layouts : List Layout)
        → IsTable (initial_state (entries p)) table
        → block_copies (length (entries p)) (resolved_block (entries p) p.body) ≤ room → length layouts ≡ length (entries p) + room
        → HasNoBreach p → NoBreach (Among (body_breaches (entries p) p.body)) → BlockHasForms (resolved_block (entries p) p.body) → ProgramFits p
        → MachinePasses (length (entries p)) table moves
        (opening (length (entries p)) room moves (resolved_block (entries p) p.body) (initial_state (entries p)) layouts)
        (run_block (resolved_block (entries p) p.body) (initial_state (entries p))) (serial_trail p) }
{
    programs_keep_ranks();
}

/// Every instruction of its code is one that so many nodes can run, where the redistribution of each line is and layouts that compare as the same are one.
pub fn accepted_code_is_valid()
    ensures { (count : ℕ) (p : MainProgram) (shapes : List Shape) (table : ArrayTable) (moves : ℕ → List NewMapping)
        → length shapes ≤ length (entries p)
        → ((layouts : List Layout) → AreOwned count layouts → (anchor : Option Anchor) (extents : List ℕ) → IsDealt count (table.copies layouts anchor extents))
        → ((one other : Layout) → is_same_layout one other ≡ true → one ≡ other)
        → ((layout : Layout) → lies_alone table layout ≡ true → IsInBlocks count layout)
        → ((line : ℕ) → IsValidInstr count shapes (meaning_of table (Remap line (moves line))))
        → HasNoBreach p → NoBreach (Among (body_breaches (entries p) p.body))
        → IsValidCode (meaning_of table) count shapes (program_code (length (entries p)) moves (resolved_block (entries p) p.body)) }
{}

/// The statements of a program that breaks no rule of names, types and ranks have a subscript for each dimension of each array, and none
/// of its arrays has more than 7 dimensions.
pub fn programs_keep_ranks()
    ensures { (p : MainProgram) → HasNoBreach p
        → AreFewDims (declared_shapes (initial_state (entries p)))
        × BlockKeepsRanks (declared_shapes (initial_state (entries p))) (resolved_block (entries p) p.body) }
{
    all_are_known();
}

/// The code of a program that breaks no rule is valid, where the redistribution of each line is: all that it names is there, with a subscript
/// for each dimension of each array and 7 at most. There are slots for the declared names and the hidden ones, and as many copies as the code names, or more.
pub fn accepted_programs_have_valid_code()
    ensures { (p : MainProgram) (moves : ℕ → List NewMapping) (table : CodeTable) → table.shapes ≡ declared_shapes (initial_state (entries p))
        → length (entries p) + block_slots (resolved_block (entries p) p.body) ≤ table.slots
        → block_copies (length (entries p)) (resolved_block (entries p) p.body) ≤ table.copies
        → length (program_code (length (entries p)) moves (resolved_block (entries p) p.body)) ≡ table.places
        → ((line : ℕ) → IsValid table (Remap line (moves line)))
        → HasNoBreach p → NoBreach (Among (body_breaches (entries p) p.body)) → BlockHasForms (resolved_block (entries p) p.body)
        → IsValidNodeCode table (program_code (length (entries p)) moves (resolved_block (entries p) p.body)) }
{
    programs_keep_ranks();
}
