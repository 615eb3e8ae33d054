//! Laws of states.

ghost use Rattle.std.specs.Prelude.{◌≡◌, ℕ, List, Some, length, take};
ghost use Rattle.std.specs.List.{slice_get};
ghost use Rattle.hpf_base.specs.declared.index.Shape.{Shape};
ghost use Rattle.mappings.specs.declared.mapping.Mapping.{Mapping};
ghost use Rattle.array_meaning.specs.Faults.{Fault};
ghost use Rattle.statement_trail.specs.Trail.{Trail, TrailEntry};
ghost use Rattle.passed_states.specs.TrailLayouts.{trail_layouts};
ghost use Rattle.machine_steps.specs.Agrees.{IsValidCode};
ghost use Rattle.machine_steps.specs.Layout.{Layout};
ghost use Rattle.machine_steps.specs.Machine.{Machine, steps};
ghost use Rattle.code_meaning.specs.Instructions.{ArrayTable, meaning_of, remappings};
ghost use Rattle.node_code.specs.Instructions.{Instruction, NewMapping};
ghost use Rattle.lowered_expressions.specs.Passed.{IsTrail, Passed, passed};
ghost use Rattle.passed_states.specs.PassedLayouts.{passed_layouts};
ghost use Rattle.passed_states.specs.Places.{IsPassed};

/// Each entry of a trail that the machine passes is passed at one of its states: the machine has passed the entries before it, and is before an
/// instruction that is that entry.
pub fn entries_passed()
    ensures { (table : ArrayTable) (moves : ℕ → List NewMapping) (k : ℕ) (m : Machine Instruction Fault) (entries : Trail)
        → IsTrail moves (passed table k m) entries
        → (i : ℕ) (e : TrailEntry) → slice_get entries i ≡ Some e → IsPassed table moves k m entries i e }
{}

/// The declared names lie, at each state of the machine over valid code, as at the first, with the redistributions that were passed so far
/// applied in order.
pub fn maps_now()
    ensures { (table : ArrayTable) (count : ℕ) (shapes : List Shape) (k : ℕ) (m : Machine Instruction Fault)
        → m.substep ≡ 0 → IsValidCode (meaning_of table) count shapes m.code
        → take (length shapes) (steps (meaning_of table) k m).layouts ≡ passed_layouts table.maps (passed table k m) (take (length shapes) m.layouts) }
{}

/// What is a trail moves arrays as the trail says.
pub fn trails_move()
    ensures { (maps : List Mapping) (moves : ℕ → List NewMapping) (ps : List Passed) (entries : Trail) (layouts : List Layout)
        → IsTrail moves ps entries
        → passed_layouts maps ps layouts ≡ trail_layouts (λ line. remappings maps (moves line)) entries layouts }
{}
