//! Nests that keep the rules by their form.

ghost use Rattle.std.specs.Prelude.{◌≡◌, ℕ, Bool, Ok, FitsSigned};
ghost use Rattle.std.specs.Int.{w64};
ghost use Rattle.op_tables.specs.Operators.{wrapped};
ghost use Rattle.nest_syntax.specs.NestKinds.{Kind};
ghost use Rattle.array_meaning.specs.State.{State, scalar};
ghost use Rattle.array_meaning.specs.Statements.{Loop, Nest, Block, Do, Outermost};
ghost use Rattle.array_meaning.specs.Expressions.{index_values};
ghost use Rattle.array_meaning.specs.Iterations.{values_of, iteration_count};
ghost use Rattle.nest_items.specs.NestForm.{IsNest};
ghost use Rattle.nest_items.specs.Standing.{NestStands};
ghost use Rattle.storage.specs.Storage.{Storage};
ghost use Rattle.nest_order.specs.Nest.{plain_loops};
ghost use Rattle.array_meaning.specs.Execution.{run};
ghost use Rattle.array_meaning.specs.NestEntry.{check_nest};
ghost use Rattle.nest_items.specs.NestItems.{one, iteration_items};
ghost use Rattle.nest_items.specs.Settled.{settled_by};
ghost use Rattle.nest_items.specs.NestEnds.{IsOpening, EndsAs};

/// A nest that keeps the rules by its form stands in each state whose scalars are numbers of 64 bits, where the control of its outermost loop has no
/// fault there and begins with such a number.
pub fn keeping_nests_stand()
    ensures { (kinds : ℕ → Kind) (all : ℕ → Bool) (nest : Nest) (loop : Loop) (block body : Block) → IsNest kinds all nest loop block body
        → (s : State) → ((k : ℕ) → FitsSigned w64 (scalar s k)) → index_values s loop.control ≡ Ok (values_of s loop)
        → wrapped (values_of s loop).first ≡ (values_of s loop).first
        → NestStands kinds all s nest loop block body }
{}

/// A nest that keeps the rules and that is entered ends as the plain loops over its iterations do: with their fault, or normally with the state
/// of their storage, but for the indices, which are as its loops leave them.
pub fn nests_end()
    ensures { (kinds : ℕ → Kind) (all : ℕ → Bool) (s : State) (nest : Nest) (line : ℕ) (loop : Loop) (block body : Block)
        → NestStands kinds all s nest loop block body
        → check_nest nest body s ≡ Ok s
        → (start : Storage)
        → IsOpening kinds s start
        → EndsAs kinds all s (settled_by s (Do (Outermost nest body) loop block) s) (run (Do (Outermost nest body) loop block) line s)
        (plain_loops (one kinds) (iteration_items nest body s) start (iteration_count nest s)) }
{}
