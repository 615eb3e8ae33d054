//! Laws of the machine over the code of a nest.

ghost use Rattle.std.specs.Prelude.{◌≡◌, ℕ, ◌+◌, ◌<◌, ◌≤◌, ◌⊎◌, List, length, ℤ, Option, Some, None, Bool, true, false};
ghost use Rattle.std.specs.List.{Contains};
ghost use Rattle.storage.specs.Storage.{Storage};
ghost use Rattle.storage.specs.Parted.{parted, kept, NoneKept, IsLeastKept};
ghost use Rattle.nest_order.specs.Nest.{Interpretation, nest_act};
ghost use Rattle.nest_syntax.specs.NestKinds.{Kind};
ghost use Rattle.nest_order.specs.Copies.{with_copies};
ghost use Rattle.nest_order.specs.Scalars.{PartedAgrees};
ghost use Rattle.machine_steps.specs.Layout.{Layout};
ghost use Rattle.machine_steps.specs.Instr.{Instr};
ghost use Rattle.machine_steps.specs.Machine.{steps, Kept};
ghost use Rattle.nest_machine.specs.Counting.{Counting, IsCounting};
ghost use Rattle.nest_machine.specs.Body.{Body, count_body, body_slots, TakeSteps};
ghost use Rattle.nest_machine.specs.BodyCode.{Texts, body_code};
ghost use Rattle.nest_machine.specs.Slots.{slots_after};
ghost use Rattle.nest_machine.specs.Trace.{Data, all_traced, acts, trace};
ghost use Rattle.nest_machine.specs.Stands.{stands, HasAt, StaysQuiet};
ghost use Rattle.nest_machine.specs.ItemsAt.{items_at};
ghost use Rattle.nest_syntax.specs.Finals.{Final};
ghost use Rattle.nest_machine.specs.Finals.{final_slot, AreApart, EndsFaulted};
ghost use Rattle.nest_machine.specs.Entries.{nest_entries, nest_code, rows_after};
ghost use Rattle.nest_machine.specs.Placed.{Placed, IsPlace, PlacedMean, PlacedTexts};
ghost use Rattle.nest_machine.specs.PlacedEntry.{IsPlacedMemory};
ghost use Rattle.nest_machine.specs.PlacedEnds.{PlacedAfter};

use node_run::least_of_parts;

/// The machine over the code of a body does what its trace says, and comes after it, by quiet places where all of the code are.
pub fn bodies_run<T, A, C, F>()
    ensures { (meaning : T → Instr F) (code : List T) (is_quiet : ℕ → Bool) (joined : ℤ) (line printed : List ℕ) (texts : Texts A C F) (counting : Counting F)
        (size : List ℤ → ℕ) (layout : List Layout → List ℤ → Layout) (stored : ℕ)
        (is_index : ℕ → Bool) (body : Body A C) (guard : Option ℕ) (k b pc : ℕ) (s : List ℤ) (d : Data F)
        → let c = body_code texts counting size layout stored body guard k b pc in
        IsCounting counting → HasAt meaning code is_quiet pc c → b + body_slots body ≤ length s → TakeSteps counting is_index body
        → ((x : ℕ) → b ≤ x → is_index x ≡ false)
        → (n : ℕ) × (steps meaning n (stands meaning code joined line printed pc s d)
        ≡ stands meaning code joined line printed (pc + length c) (slots_after counting body b s)
        (all_traced layout (trace texts counting size stored body guard k b s) d))
        × StaysQuiet meaning is_quiet n (stands meaning code joined line printed pc s d) }
{}

/// A body over the machine's rows is the parted order of its items over the nest's rows, each at its place; what is kept after it is
/// nothing where the acts keep nothing, and else their fault of the least key.
pub fn bodies_are_parted<A, C, F, P, Q>()
    ensures { (texts : Texts A C F) (counting : Counting F) (size : List ℤ → ℕ) (layout : List Layout → List ℤ → Layout) (stored row : ℕ)
        (interpretation : Interpretation P Q F) (action_at : A → List ℤ → ℕ → P) (condition_at : C → List ℤ → ℕ → Q)
        (place : ℕ → ℕ) (is_row is_index : ℕ → Bool) (start : Storage) (n b : ℕ) (s : List ℤ) (body : Body A C) (d : Data F)
        → PlacedMean texts interpretation action_at condition_at place is_row is_index b s
        → PlacedTexts texts size layout stored row (count_body body) place is_row is_index start n b s
        → TakeSteps counting is_index body
        → IsPlace place is_row → Placed place is_row start d.rows → d.kept ≡ None
        → let act = nest_act interpretation row (λ i. items_at counting action_at condition_at i body b s) in
        let done = trace texts counting size stored body None 0 b s in
        let d' = all_traced layout done d in
        let k = length (acts done) in
        Placed place is_row (parted act start n k) d'.rows
        × (d'.kept ≡ None → NoneKept act start n k)
        × ((l : Kept F) → d'.kept ≡ Some l → (j : ℕ) × IsLeastKept act start n k l.tuple j l.fault) }
{
    least_of_parts::<F>();
}

/// The machine over the code of a nest, after that of its bounds and its check: either no act keeps a fault, and it comes after the nest
/// with the values of any storage that agrees with the parted order; or it ends with the fault of the least key.
pub fn nests_run<I, A, C, F, P, Q>()
    ensures { (meaning : I → Instr F) (code : List I) (is_quiet : ℕ → Bool) (joined : ℤ) (line printed : List ℕ) (texts : Texts A C F) (counting : Counting F)
        (size : List ℤ → ℕ) (layout : List Layout → List ℤ → Layout) (stored row : ℕ) (interpretation : Interpretation P Q F)
        (action_at : A → List ℤ → ℕ → P) (condition_at : C → List ℤ → ℕ → Q) (body : Body A C) (b pc n : ℕ) (s : List ℤ) (d : Data F)
        (place : ℕ → ℕ) (is_row is_index : ℕ → Bool) (alike : Layout → Layout → Bool) (finals : List Final) (kinds : ℕ → Kind) (start : Storage)
        → let copies = with_copies kinds n start in
        let act = nest_act interpretation row (λ i. items_at counting action_at condition_at i body b s) in
        let k = length (acts (trace texts counting size stored body None 0 b s)) in
        let c = nest_code texts counting size layout stored alike finals body b pc in
        IsCounting counting
        → HasAt meaning code is_quiet pc c → b + body_slots body ≤ length s → TakeSteps counting is_index body
        → ((x : ℕ) → b ≤ x → is_index x ≡ false)
        → PlacedMean texts interpretation action_at condition_at place is_row is_index b s
        → PlacedTexts texts size layout stored row (count_body body) place is_row is_index copies n b s
        → IsPlace place is_row → IsPlacedMemory layout s place is_row kinds n start (nest_entries finals stored (count_body body)) d
        → d.kept ≡ None
        → AreApart finals → ((f : Final) → Contains finals f → final_slot f < b) → ((l : Layout) → alike l l ≡ true)
        → (NoneKept act copies n k
        × ((m : Storage) → PartedAgrees kinds row (kept act copies n) k n start m (parted act copies n k)
        → PlacedAfter meaning code is_quiet joined line printed pc (pc + length c) texts stored row (count_body body) b place is_row is_index kinds start
        finals (slots_after counting body b s) s (rows_after texts counting size layout stored finals body b s d) d m))
        ⊎ ((i : ℕ) × (j : ℕ) × (f : F) × IsLeastKept act copies n k i j f
        × EndsFaulted meaning code is_quiet joined line printed pc s d f) }
{
    least_of_parts::<F>();
}
