//! The statements of an iteration and the guarded parts that they flatten to.

ghost use Rattle.std.specs.Prelude.{◌≡◌, ℕ, Option, Ok, true, false, ◌<◌};
ghost use Rattle.std.specs.List.{Contains};
ghost use Rattle.nest_order.specs.Items.{Items, Evaluation, exec};
ghost use Rattle.nest_order.specs.Parts.{Conditions, guard_holds, IsBelow, Iteration, flat, do_parts, Matches};
ghost use Rattle.nest_order.specs.Listed.{Names, touched, listed, AreKnown};

/// Flattened statements, at a guard that is stored before theirs. Where it holds, the parts do what the statements do:
/// they end with the same storage, or with the same fault. Where it doesn't hold, they do nothing. Neither changes a
/// condition that was stored before.
pub fn flattened_items<A, C, M, F>()
    ensures taken { (evaluation : Evaluation A C M F) (items : Items A C)
        (guard : Option ℕ) (k : ℕ) (m : M) (conditions : Conditions)
        → IsBelow guard k
        → guard_holds guard conditions ≡ true
        → Matches k conditions
        (do_parts evaluation (flat items guard k) (record { storage = m; conditions = conditions }))
        (exec evaluation items m) }
    ensures passed { (evaluation : Evaluation A C M F) (items : Items A C)
        (guard : Option ℕ) (k : ℕ) (m : M) (conditions : Conditions)
        → IsBelow guard k
        → guard_holds guard conditions ≡ false
        → Matches k conditions
        (do_parts evaluation (flat items guard k) (record { storage = m; conditions = conditions }))
        (Ok m) }
{}

/// Where an iteration evaluates, going on past its faults, it touches only what is listed for it. A condition that is
/// called known goes that way in every storage, and counts one branch; any other counts both.
pub fn listed_items<A, C, L, M, F>()
    ensures { (evaluation : Evaluation A C M F) (names : Names A C L) (items : Items A C)
        (guard : Option ℕ) (k : ℕ) (s : Iteration M) (name : L)
        → AreKnown evaluation names items
        → IsBelow guard k
        → guard_holds guard s.conditions ≡ true
        → Contains (touched evaluation names (flat items guard k) s) name
        → Contains (listed names items) name }
{}
