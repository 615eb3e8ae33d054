//! Programs as node code.

ghost use Rattle.std.specs.Prelude.{◌≡◌, ◌<◌, ◌≤◌, ◌+◌, ℕ, List, length, Option, true};
ghost use Rattle.syntax_tree.specs.Statement as syntax;
ghost use Rattle.name_table.specs.declared.names.Entry.{Entry};
ghost use Rattle.hpf_base.specs.declared.index.Shape.{Shape};
ghost use Rattle.machine_steps.specs.Agrees.{IsValidCode, IsValidInstr};
ghost use Rattle.program_code.specs.StatementCode.{block_copies, block_slots, program_code};
ghost use Rattle.array_meaning.specs.Resolution.{resolved_block, initial_state};
ghost use Rattle.array_meaning.specs.Serial.{outcome};
ghost use Rattle.array_meaning.specs.Execution.{run_block};
ghost use Rattle.array_meaning.specs.State.{State};
ghost use Rattle.statement_trail.specs.Trail.{block_trail};
ghost use Rattle.array_meaning.specs.Statements.{Block};
ghost use Rattle.lowering.specs.Lowered.{IsState, IsTable, opening, MachineEnds, MachineHas, MachinePasses};
ghost use Rattle.nest_items.specs.BlockForms.{BlockHasForms};
ghost use Rattle.fitting_states.specs.FittingStates.{BlockFits, InitialValuesFit, StateFits};
ghost use Rattle.lowered_expressions.specs.WellFormed.{IsWellFormedBlock};
ghost use Rattle.lowering.specs.Ranks.{AreFewDims, BlockKeepsRanks, declared_shapes};
ghost use Rattle.machine_steps.specs.Layout.{AreOwned, IsDealt, IsInBlocks, Layout};
ghost use Rattle.machine_steps.specs.SameLayouts.{is_same_layout};
ghost use Rattle.code_meaning.specs.Beside.{Anchor};
ghost use Rattle.code_meaning.specs.Instructions.{ArrayTable, lies_alone, meaning_of};
ghost use Rattle.node_code.specs.Instructions.{NewMapping, Remap};
ghost use Rattle.code_meaning.specs.ValidCode.{CodeTable, IsValid, IsValidNodeCode};

/// The machine with whole arrays ends over a program's code as the program does: with the first fault, its line, kind and tuple, and
/// the bytes that were printed before it, or finished with the program's bytes, scalars and arrays. After the declared names there is
/// room for as many copies as the code names, or more. Each nest of INDEPENDENT loops keeps the rules by its form, ranks are kept, and all
/// numbers are of 64 bits.
pub fn programs_lowered()
    ensures { (n room : ℕ) (table : ArrayTable) (moves : ℕ → List NewMapping) (body : Block) (s : State) (layouts : List Layout)
        → IsState n s → IsTable s table → block_copies n body ≤ room → length layouts ≡ n + room → IsWellFormedBlock n body → BlockHasForms body
        → BlockKeepsRanks (declared_shapes s) body → BlockFits body → StateFits s
        → MachineEnds n table (opening n room moves body s layouts) (run_block body s) }
{}

/// The machine passes, on its way to that end, the parts and the redistributions that the program reaches, in their order and no others: entry
/// by entry the instruction is that part, with the scalars of that moment in its slots, its constants and the slots that it names give
/// what was evaluated once, and its copies lie beside what the part says; or it gives the arrays the mappings of the REDISTRIBUTE's line.
pub fn trails_lowered()
    ensures { (n room : ℕ) (table : ArrayTable) (moves : ℕ → List NewMapping) (body : Block) (s : State) (layouts : List Layout)
        → IsState n s → IsTable s table → block_copies n body ≤ room → length layouts ≡ n + room → IsWellFormedBlock n body → BlockHasForms body
        → BlockKeepsRanks (declared_shapes s) body → BlockFits body → StateFits s
        → MachinePasses n table moves (opening n room moves body s layouts) (run_block body s) (block_trail body s) }
{}

/// The machine with whole arrays ends over a program's code with the serial outcome of the program, where these names are declared.
pub fn outcomes_lowered()
    ensures { (names : List Entry) (room : ℕ) (moves : ℕ → List NewMapping) (body : syntax.Block) (table : ArrayTable) (layouts : List Layout)
        → IsTable (initial_state names) table → block_copies (length names) (resolved_block names body) ≤ room → length layouts ≡ length names + room
        → IsWellFormedBlock (length names) (resolved_block names body) → BlockHasForms (resolved_block names body)
        → BlockKeepsRanks (declared_shapes (initial_state names)) (resolved_block names body) → BlockFits (resolved_block names body)
        → InitialValuesFit names
        → MachineHas (length names) table
        (opening (length names) room moves (resolved_block names body) (initial_state names) layouts) (outcome names body) }
{}

/// Every instruction of a program's code is one that so many nodes can run: no copy is a declared array, each of its elements has an
/// owner, and the values of reductions are joined alike in any order and grouping.
pub fn code_is_valid()
    ensures { (count n : ℕ) (shapes : List Shape) (table : ArrayTable) (moves : ℕ → List NewMapping) (body : Block)
        → length shapes ≤ n
        → ((layouts : List Layout) → AreOwned count layouts → (anchor : Option Anchor) (extents : List ℕ) → IsDealt count (table.copies layouts anchor extents))
        → ((one other : Layout) → is_same_layout one other ≡ true → one ≡ other)
        → ((layout : Layout) → lies_alone table layout ≡ true → IsInBlocks count layout)
        → ((line : ℕ) → IsValidInstr count shapes (meaning_of table (Remap line (moves line))))
        → IsWellFormedBlock n body → IsValidCode (meaning_of table) count shapes (program_code n moves body) }
{}

/// The code of a program that keeps the ranks of its arrays names only what there is, with a subscript for each dimension of each array
/// and 7 at most, and ends with an instruction that doesn't go on to the next. There are slots for the declared names and the hidden
/// ones, and as many copies as the code names, or more.
pub fn programs_have_valid_code()
    ensures { (table : CodeTable) (n : ℕ) (moves : ℕ → List NewMapping) (body : Block)
        → length table.shapes ≡ n → AreFewDims table.shapes → n + block_slots body ≤ table.slots → block_copies n body ≤ table.copies
        → length (program_code n moves body) ≡ table.places → ((line : ℕ) → IsValid table (Remap line (moves line)))
        → IsWellFormedBlock n body → BlockHasForms body → BlockKeepsRanks table.shapes body → IsValidNodeCode table (program_code n moves body) }
{}
