//! Laws of nests on the machine.

ghost use Rattle.std.specs.Prelude.{◌≡◌, ℕ, ◌+◌, ◌<◌, ◌≤◌, ◌⊎◌, List, [], length, ℤ, Bool, true, false, None, Some};
ghost use Rattle.storage.specs.Storage.{Storage, row_of, read};
ghost use Rattle.array_meaning.specs.Statements.{Loop, Block, Do, Outermost};
ghost use Rattle.array_meaning.specs.Faults.{Fault};
ghost use Rattle.array_meaning.specs.State.{State, array, scalar};
ghost use Rattle.array_meaning.specs.Runs.{Run};
ghost use Rattle.array_meaning.specs.Execution.{run};
ghost use Rattle.array_meaning.specs.Iterations.{iteration_count, at_iteration};
ghost use Rattle.machine_steps.specs.Instr.{Instr};
ghost use Rattle.code_meaning.specs.Flat.{slot};
ghost use Rattle.code_meaning.specs.Parallel.{shape_of};
ghost use Rattle.nest_items.specs.Settled.{settled};
ghost use Rattle.nest_machine.specs.Body.{count_body, body_slots};
ghost use Rattle.nest_machine.specs.Slots.{slots_after};
ghost use Rattle.nest_machine.specs.Trace.{Data};
ghost use Rattle.nest_texts.specs.NestLoops.{counting_at};
ghost use Rattle.statement_trail.specs.NestParts.{index_in};
ghost use Rattle.nest_join.specs.NestNames.{NestNames, indices_of};
ghost use Rattle.nest_join.specs.NestTexts.{HoldsEntry, texts_of};
ghost use Rattle.nest_join.specs.CodedBlocks.{IsCodedBlock};
ghost use Rattle.nest_join.specs.NestRuns.{NestCode, machine_body, IsBegun, EndsAsMeant, FaultsAsMeant, HoldsRows, HasFinals};
ghost use Rattle.nest_syntax.specs.NestKinds.{Kind, has_copies};
ghost use Rattle.nest_machine.specs.Placed.{IsPlace};
ghost use Rattle.program_code.specs.Places.{conditions_from, place_of, is_nest_row, marks_of, AreScalars, finals_of};
ghost use Rattle.nest_machine.specs.Finals.{AreApart, final_slot};
ghost use Rattle.nest_machine.specs.Entries.{nest_entries, NotMade, AreRows};
ghost use Rattle.std.specs.List.{Contains};
ghost use Rattle.nest_order.specs.Copies.{scalar_at};
ghost use Rattle.nest_syntax.specs.Finals.{Final};
ghost use Rattle.nest_machine.specs.PlacedEnds.{IsPlacedFinal};

/// The machine over the code of a nest ends as the run of the nest: both normally, and the machine comes after the code with the arrays and the
/// scalars of the storage that the run leaves; or both with one fault.
pub fn nests_end<I>()
    ensures { (meaning : I → Instr Fault) (code : List I) (is_quiet : ℕ → Bool) (joined : ℤ) (line printed : List ℕ) (w : NestNames) (c : NestCode) (all : ℕ → Bool) (s : State)
        (loop : Loop) (block body : Block) (ok : IsCodedBlock w s [] body) (start : Storage) (entry : List ℤ) (d : Data Fault)
        → IsBegun meaning code is_quiet w c all s loop block body ok start entry d
        → let r = run (Do (Outermost w.nest body) loop block) c.line s in
        EndsAsMeant meaning code is_quiet joined line printed w c all s loop block body ok start entry d r
        ⊎ FaultsAsMeant meaning code is_quiet joined line printed w c all s loop block body ok start entry d r }
{}

/// After a nest that ends normally each array of the state that it leaves has its elements in the machine's row of its name, and its shape.
pub fn arrays_held<I>()
    ensures { (meaning : I → Instr Fault) (code : List I) (is_quiet : ℕ → Bool) (joined : ℤ) (line printed : List ℕ) (w : NestNames) (c : NestCode) (all : ℕ → Bool) (s : State)
        (loop : Loop) (block body : Block) (ok : IsCodedBlock w s [] body) (start : Storage) (entry : List ℤ) (d : Data Fault) (r : Run)
        (h : EndsAsMeant meaning code is_quiet joined line printed w c all s loop block body ok start entry d r)
        → HoldsEntry w c.slot entry s → HoldsRows w c s (count_body (machine_body w c s body ok)) start d
        → (a : ℕ) → a < w.count
        → (row_of h.after.data'.rows a ≡ (array h.state a).elements) × ((array h.state a).dims ≡ shape_of w.table.shapes a) }
{}

/// After a nest that ends normally each scalar of the state that it leaves, but for indices, has its value in its slot.
pub fn scalars_held<I>()
    ensures { (meaning : I → Instr Fault) (code : List I) (is_quiet : ℕ → Bool) (joined : ℤ) (line printed : List ℕ) (w : NestNames) (c : NestCode) (all : ℕ → Bool) (s : State)
        (loop : Loop) (block body : Block) (ok : IsCodedBlock w s [] body) (start : Storage) (entry : List ℤ) (d : Data Fault) (r : Run)
        (h : EndsAsMeant meaning code is_quiet joined line printed w c all s loop block body ok start entry d r)
        → HoldsEntry w c.slot entry s → HasFinals w c s body ok start entry
        → (k : ℕ) → k < w.count → all k ≡ false → w.is_index k ≡ false → slot h.after.slots k ≡ scalar h.state k }
{}

/// After the code of a block the index of each loop in it is in its slot as the block leaves it in an iteration, and each other index as it was.
pub fn inner_indices()
    ensures { (w : NestNames) (c : NestCode) (entry : List ℤ) (s : State) (body : Block) (ok : IsCodedBlock w s [] body) (i : ℕ) (z : State)
        → HoldsEntry w c.slot entry s → ((x : ℕ) → c.slot ≤ x → w.is_index x ≡ false)
        → c.slot + body_slots (machine_body w c s body ok) ≤ length entry
        → length z.scalars ≡ w.count → ((k : ℕ) → k < w.count → w.is_index k ≡ true → slot entry k ≡ scalar z k)
        → (k : ℕ) → k < w.count → w.is_index k ≡ true
        → slot (slots_after (counting_at c.line) (machine_body w c s body ok) c.slot entry) k ≡ scalar (settled (at_iteration w.nest s i) body z) k }
{}

/// After a nest that has an iteration and ends normally the index of each inner loop that is none of the nest's has its value in its slot.
pub fn indices_held<I>()
    ensures { (meaning : I → Instr Fault) (code : List I) (is_quiet : ℕ → Bool) (joined : ℤ) (line printed : List ℕ) (w : NestNames) (c : NestCode) (all : ℕ → Bool) (s : State)
        (loop : Loop) (block body : Block) (ok : IsCodedBlock w s [] body) (start : Storage) (entry : List ℤ) (d : Data Fault) (r : Run)
        → IsBegun meaning code is_quiet w c all s loop block body ok start entry d
        → (h : EndsAsMeant meaning code is_quiet joined line printed w c all s loop block body ok start entry d r)
        → HasFinals w c s body ok start entry
        → (iteration_count w.nest s ≡ 0 → ⊥) → ((j : ℕ) → j < w.count → w.is_index j ≡ true → slot entry j ≡ scalar s j)
        → (k : ℕ) → k < w.count → all k ≡ true → w.is_index k ≡ true → index_in (indices_of w) 0 k ≡ None
        → slot h.after.slots k ≡ scalar h.state k }
{}

/// No two rows of a nest lie at one place: not its names, nor its stored conditions, which lie one after another. An array lies at its own
/// place, and marks lie where no row of the nest does.
pub fn rows_apart()
    ensures places { (n : ℕ) (scalars : List ℕ) (conditions : ℕ) → AreScalars n scalars
        → IsPlace (place_of n scalars conditions) (is_nest_row n scalars conditions) }
    ensures conditions { (n : ℕ) (scalars : List ℕ) (conditions : ℕ) → AreScalars n scalars
        → (c : ℕ) → c < conditions
        → (place_of n scalars conditions (n + c) ≡ conditions_from n scalars conditions + c) × (is_nest_row n scalars conditions (n + c) ≡ true) }
    ensures arrays { (n : ℕ) (scalars : List ℕ) (conditions : ℕ) → AreScalars n scalars
        → (a : ℕ) → a < n → index_in scalars 0 a ≡ None
        → (place_of n scalars conditions a ≡ a) × (is_nest_row n scalars conditions a ≡ true) }
    ensures marks { (n : ℕ) (scalars : List ℕ) (conditions : ℕ) → AreScalars n scalars
        → (kinds : ℕ → Kind) (k q : ℕ) → marks_of n scalars conditions kinds k ≡ Some q
        → (r : ℕ) → is_nest_row n scalars conditions r ≡ true → place_of n scalars conditions r ≡ q → ⊥ }
{}

/// The copies of a nest are made in rows of their own, each once, and in none of a name; and no two scalars get their value in one slot.
pub fn copies_apart()
    ensures rows { (n : ℕ) (scalars : List ℕ) (conditions : ℕ) (kinds : ℕ → Kind)
        → AreRows (nest_entries (finals_of n scalars conditions kinds) (conditions_from n scalars conditions) conditions) }
    ensures names { (n : ℕ) (scalars : List ℕ) (conditions : ℕ) (kinds : ℕ → Kind) (a : ℕ) → a < n
        → NotMade a (nest_entries (finals_of n scalars conditions kinds) (conditions_from n scalars conditions) conditions) }
    ensures slots { (n : ℕ) (scalars : List ℕ) (conditions : ℕ) (kinds : ℕ → Kind) → AreScalars n scalars
        → AreApart (finals_of n scalars conditions kinds) }
{}

/// Where scalars with copies, their marks and the nest's rows lie as these numbers say, each of these scalars gets its value after the nest by
/// one of the nest's finals, from its own copies.
pub fn finals_listed()
    ensures { (w : NestNames) (scalars : List ℕ) (conditions b : ℕ) (start : Storage) (entry : List ℤ)
        → AreScalars w.count scalars
        → ((k : ℕ) → w.place k ≡ place_of w.count scalars conditions k) → ((k : ℕ) → w.marks k ≡ marks_of w.count scalars conditions w.kinds k)
        → ((k : ℕ) → has_copies (w.kinds k) ≡ true → (j : ℕ) × (index_in scalars 0 k ≡ Some j))
        → ((r : ℕ) → w.is_row r ≡ is_nest_row w.count scalars conditions r)
        → w.count ≤ b
        → (k : ℕ) → k < w.count → has_copies (w.kinds k) ≡ true → w.is_index k ≡ false → slot entry k ≡ read start (scalar_at k)
        → (f : Final) × Contains (finals_of w.count scalars conditions w.kinds) f × (final_slot f ≡ k)
        × IsPlacedFinal (texts_of w) (conditions_from w.count scalars conditions) w.count conditions b w.place w.is_row w.is_index w.kinds start entry f k }
{}
