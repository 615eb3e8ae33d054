//! The law of the text of `messages`.

ghost use Rattle.std.specs.Prelude.{◌≡◌, ◌≤◌, ◌+◌, ℕ, List, length};
ghost use Rattle.hpf_base.specs.FirstBreach.{Among};
ghost use Rattle.hpf_base.specs.Refusal.{NoBreach};
ghost use Rattle.syntax_tree.specs.MainProgram.{MainProgram};
ghost use Rattle.expression_rules.specs.declared.dims.Dim.{Dim};
ghost use Rattle.name_table.specs.Entries.{entries};
ghost use Rattle.name_table.specs.Resolved.{HasNoBreach};
ghost use Rattle.body_check.specs.BodyRules.{body_breaches};
ghost use Rattle.array_meaning.specs.Execution.{run_block};
ghost use Rattle.array_meaning.specs.Resolution.{initial_state, resolved_block};
ghost use Rattle.array_meaning.specs.State.{State};
ghost use Rattle.array_meaning.specs.Statements.{Block};
ghost use Rattle.statement_trail.specs.Trail.{block_trail, serial_trail};
ghost use Rattle.machine_steps.specs.Layout.{Layout};
ghost use Rattle.code_meaning.specs.Instructions.{ArrayTable};
ghost use Rattle.node_code.specs.Instructions.{NewMapping};
ghost use Rattle.well_formed.specs.Lowered.{IsState, IsTable, opening};
ghost use Rattle.well_formed.specs.Ranks.{BlockKeepsRanks, declared_shapes};
ghost use Rattle.program_code.specs.StatementCode.{block_copies};
ghost use Rattle.lowered_expressions.specs.WellFormed.{IsWellFormedBlock};
ghost use Rattle.nest_items.specs.BlockForms.{BlockHasForms};
ghost use Rattle.fitting_states.specs.FittingStates.{BlockFits, ProgramFits, StateFits};
ghost use Rattle.messages_lowered.specs.PassedText.{MachineHasText, setting_by};

use well_formed::accepted_trails_lowered;

/// The machine with whole arrays ends over a program's code as the program does, and the text of `messages` by what it passes on its way
/// is that of the program's trail, however many nodes there are, whatever they call the declared names, and however these lie at the start.
pub fn texts_lowered()
    ensures { (n room : ℕ) (table : ArrayTable) (moves : ℕ → List NewMapping) (nodes : ℕ) (names : List (List ℕ)) (shapes : List (List Dim))
        (body : Block) (s : State) (layouts starts : List Layout)
        → IsState n s → IsTable s table → block_copies n body ≤ room → length layouts ≡ n + room → length starts ≡ n → IsWellFormedBlock n body → BlockHasForms body
        → BlockKeepsRanks (declared_shapes s) body → BlockFits body → StateFits s
        → MachineHasText n table (setting_by nodes names shapes table.maps moves) starts (opening n room moves body s layouts) (run_block body s)
        (block_trail body s) }
{}

/// So it is for every program that breaks no rule of names, ranks and bodies: the text by what is passed over its code is that of its trail.
pub fn accepted_texts_lowered()
    ensures { (p : MainProgram) (room : ℕ) (table : ArrayTable) (moves : ℕ → List NewMapping) (nodes : ℕ) (names : List (List ℕ)) (shapes : List (List Dim))
        (layouts starts : List Layout)
        → IsTable (initial_state (entries p)) table → block_copies (length (entries p)) (resolved_block (entries p) p.body) ≤ room
        → length layouts ≡ length (entries p) + room → length starts ≡ length (entries p) → HasNoBreach p → NoBreach (Among (body_breaches (entries p) p.body))
        → BlockHasForms (resolved_block (entries p) p.body) → ProgramFits p
        → MachineHasText (length (entries p)) table (setting_by nodes names shapes table.maps moves) starts
        (opening (length (entries p)) room moves (resolved_block (entries p) p.body) (initial_state (entries p)) layouts)
        (run_block (resolved_block (entries p) p.body) (initial_state (entries p))) (serial_trail p) }
{
    accepted_trails_lowered();
}
