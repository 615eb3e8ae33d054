//! Programs whose numbers are of 64 bits, and their states.

ghost use Rattle.std.specs.Prelude.{ℕ, List};
ghost use Rattle.array_meaning.specs.Entry.{Entry};
ghost use Rattle.array_meaning.specs.State.{State};
ghost use Rattle.array_meaning.specs.Statements.{Block, Statement};
ghost use Rattle.array_meaning.specs.Execution.{run, run_block};
ghost use Rattle.array_meaning.specs.Resolution.{initial_state};
ghost use Rattle.fitting_states.specs.FittingStates.{StateFits, InitialValuesFit, BlockFits, StatementFits};

/// A program whose numbers are of 64 bits keeps its state of 64 bits, with each statement and to its end, however that is. So is the state at the start,
/// where the initial values are.
pub fn states_fit()
    ensures start { (names : List Entry) → InitialValuesFit names → StateFits (initial_state names) }
    ensures statements { (statement : Statement) (line : ℕ) (s : State) → StatementFits statement → StateFits s
        → StateFits (run statement line s).state }
    ensures blocks { (body : Block) (s : State) → BlockFits body → StateFits s → StateFits (run_block body s).state }
{}
