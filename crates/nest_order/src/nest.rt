//! A nest of statements as acts of parts on one storage.

ghost use Rattle.std.specs.Prelude.{◌≡◌, ℕ, ◌<◌, ◌≤◌, ℤ, List, length, Ok, Err, None};
ghost use Rattle.storage.specs.Storage.{Storage, Spot};
ghost use Rattle.storage.specs.Effect.{Fail};
ghost use Rattle.storage.specs.Parted.{parted, kept, NoneKept, IsLeastKept};
ghost use Rattle.nest_order.specs.Items.{Items};
ghost use Rattle.nest_order.specs.Parts.{flat};
ghost use Rattle.nest_order.specs.Listed.{Names};
ghost use Rattle.nest_order.specs.Nest.{Interpretation, nest_effects, nest_act, part_of};
ghost use Rattle.nest_order.specs.Nest.{plain_loops, EndAlike, SameBelow, IsParallel};
ghost use Rattle.nest_order.specs.Stores.{noted_by_all, observed_loops};

/// The law of fission for nests. Let no iteration write what is listed for another one. Where the parted order keeps no
/// fault, the plain loops end with its storage, but for the stored conditions. Else they end with the fault of the least
/// key.
pub fn law_of_nests<A, C, F>()
    ensures finishes { (interpretation : Interpretation A C F) (names : Names A C Spot)
        (written : A → List Spot) (start : Storage) (row n parts : ℕ) (items : ℕ → Items A C)
        → IsParallel interpretation names written start row n items
        → ((i : ℕ) → i < n → length (nest_effects interpretation row items i) ≤ parts)
        → NoneKept (nest_act interpretation row items) start n parts
        → EndAlike row (plain_loops interpretation items start n)
        (Ok (parted (nest_act interpretation row items) start n parts)) }
    ensures faults { (interpretation : Interpretation A C F) (names : Names A C Spot)
        (written : A → List Spot) (start : Storage) (row n parts : ℕ) (items : ℕ → Items A C)
        (i j : ℕ) (fault : F)
        → IsParallel interpretation names written start row n items
        → ((x : ℕ) → x < n → length (nest_effects interpretation row items x) ≤ parts)
        → IsLeastKept (nest_act interpretation row items) start n parts i j fault
        → plain_loops interpretation items start n ≡ Err fault }
{}

/// The keys of faults are in one order by the numbers of acts and by the numbers of parts applied before: where an act
/// faults, each later act of that iteration is of a later part.
pub fn fault_keys<A, C, F>()
    ensures { (interpretation : Interpretation A C F) (row : ℕ) (items : ℕ → Items A C)
        (i j later : ℕ) (m : Storage) (fault : F)
        → nest_act interpretation row items i j m ≡ Fail fault
        → j < later
        → part_of (flat (items i) None 0) j < part_of (flat (items i) None 0) later }
{}

/// The stores of the plain loops are those that the parted order keeps, read iteration by iteration: whatever is noted of
/// them, as long as nothing is noted of the stored conditions. Where a fault is kept, the loops end with it as before.
pub fn stores_of_nest<A, C, F, V>()
    ensures finishes { (interpretation : Interpretation A C F) (names : Names A C Spot)
        (written : A → List Spot) (start : Storage) (row n parts : ℕ) (items : ℕ → Items A C)
        (note : ℕ → Spot → ℤ → V → V) (first : V)
        → IsParallel interpretation names written start row n items
        → ((i : ℕ) → i < n → length (nest_effects interpretation row items i) ≤ parts)
        → ((i : ℕ) (spot : Spot) (value : ℤ) (before : V) → row ≤ spot.row → note i spot value before ≡ before)
        → NoneKept (nest_act interpretation row items) start n parts
        → (m : Storage)
        × (observed_loops interpretation note items start first n
        ≡ Ok (record {
          storage = m;
          noted_so_far = noted_by_all note (kept (nest_act interpretation row items) start n) parts first n;
        }))
        × SameBelow row m (parted (nest_act interpretation row items) start n parts) }
    ensures faults { (interpretation : Interpretation A C F) (names : Names A C Spot)
        (written : A → List Spot) (start : Storage) (row n parts : ℕ) (items : ℕ → Items A C)
        (note : ℕ → Spot → ℤ → V → V) (first : V) (i j : ℕ) (fault : F)
        → IsParallel interpretation names written start row n items
        → ((x : ℕ) → x < n → length (nest_effects interpretation row items x) ≤ parts)
        → ((x : ℕ) (spot : Spot) (value : ℤ) (before : V) → row ≤ spot.row → note x spot value before ≡ before)
        → IsLeastKept (nest_act interpretation row items) start n parts i j fault
        → observed_loops interpretation note items start first n ≡ Err fault }
{}
