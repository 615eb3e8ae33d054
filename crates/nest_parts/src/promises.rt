//! A nest that is entered, and its parts.

ghost use Rattle.std.specs.Prelude.{◌≡◌, ℕ, Bool, Ok};
ghost use Rattle.storage.specs.Storage.{Storage};
ghost use Rattle.storage.specs.Parted.{NoneKept, IsLeastKept};
ghost use Rattle.nest_syntax.specs.NestKinds.{Kind};
ghost use Rattle.nest_order.specs.Copies.{copied, items_in};
ghost use Rattle.nest_order.specs.Nest.{IsParallel};
ghost use Rattle.nest_order.specs.Scalars.{MayCopy};
ghost use Rattle.array_meaning.specs.Faults.{Fault};
ghost use Rattle.array_meaning.specs.State.{State};
ghost use Rattle.array_meaning.specs.Statements.{Loop, Nest, Block, Do, Outermost};
ghost use Rattle.array_meaning.specs.Runs.{Faulted};
ghost use Rattle.array_meaning.specs.Execution.{run};
ghost use Rattle.array_meaning.specs.Iterations.{iteration_count};
ghost use Rattle.array_meaning.specs.Touches.{assigned_in};
ghost use Rattle.array_meaning.specs.NestEntry.{check_nest};
ghost use Rattle.nest_items.specs.NestItems.{one, iteration_items};
ghost use Rattle.nest_items.specs.Standing.{NestStands, AreKinds};
ghost use Rattle.nest_parts.specs.NestSpots.{touched_in, written_in, written_by, reads, reducing};
ghost use Rattle.nest_parts.specs.NestParts.{HasRoom, acts, copies, IsEntered, EndsAsParts};

/// A nest that is entered is parallel over copies.
pub fn nests_are_parallel()
    ensures { (kinds : ℕ → Kind) (all : ℕ → Bool) (s : State) (nest : Nest) (loop : Loop) (block body : Block) (start : Storage) (row : ℕ)
        → NestStands kinds all s nest loop block body
        → AreKinds kinds nest body
        → check_nest nest body s ≡ Ok s
        → HasRoom kinds s nest body start row (iteration_count nest s)
        → IsParallel (copied kinds (one kinds)) (touched_in kinds (assigned_in body)) (written_in kinds) (copies kinds nest s start) row (iteration_count nest s)
        (λ i. items_in i (iteration_items nest body s i)) }
{}

/// The scalars of a nest that is entered may have copies.
pub fn nests_may_copy()
    ensures { (kinds : ℕ → Kind) (all : ℕ → Bool) (s : State) (nest : Nest) (loop : Loop) (block body : Block) (start : Storage) (row parts : ℕ)
        → IsEntered kinds all s nest loop block body start row parts
        → MayCopy (one kinds) kinds (reads kinds (assigned_in body)) (written_by kinds) (reducing kinds) start (iteration_count nest s)
        (iteration_items nest body s) }
{}

/// A nest that keeps the rules and that is entered, against its parts over copies. Where no part keeps a fault, the nest ends normally, with the
/// state of a storage that agrees with that of the parted order, but for the indices. Else it ends with the fault of the least key, and with
/// what was printed before.
pub fn nests_as_parts()
    ensures finishes { (kinds : ℕ → Kind) (all : ℕ → Bool) (s : State) (nest : Nest) (line : ℕ) (loop : Loop) (block body : Block)
        (start : Storage) (row parts : ℕ)
        → IsEntered kinds all s nest loop block body start row parts
        → NoneKept (acts kinds nest body s row) (copies kinds nest s start) (iteration_count nest s) parts
        → EndsAsParts kinds all s nest line loop block body start row parts }
    ensures faults { (kinds : ℕ → Kind) (all : ℕ → Bool) (s : State) (nest : Nest) (line : ℕ) (loop : Loop) (block body : Block)
        (start : Storage) (row parts i j : ℕ) (fault : Fault)
        → IsEntered kinds all s nest loop block body start row parts
        → IsLeastKept (acts kinds nest body s row) (copies kinds nest s start) (iteration_count nest s) parts i j fault
        → (r : State)
        × (run (Do (Outermost nest body) loop block) line s ≡ record { state = r; completion = Faulted fault })
        × (r.printed ≡ s.printed) }
{}
