//! The law of fission.

ghost use Rattle.std.specs.Prelude.{◌≡◌, ℕ, ◌<◌, ◌⊎◌, List, Ok, Err};
ghost use Rattle.storage.specs.Storage.{Storage, Spot};
ghost use Rattle.storage.specs.Effect.{Effect};
ghost use Rattle.nest_order.specs.Orders.{plain_parts, plain, Apart};
ghost use Rattle.storage.specs.Parted.{parted, kept, NoneKept, IsLeastKept};

/// The law of fission. Let no iteration store where another one touches, and let each iteration's parts depend on what
/// it touches alone. Where no fault is kept, the plain order ends with the storage of the parted order. Else it ends
/// with the fault of the least key, which there is then.
pub fn law_of_fission<F>()
    ensures finishes { (act : ℕ → ℕ → Storage → Effect F) (start : Storage) (n parts : ℕ)
        (touches : ℕ → List Spot)
        → Apart act start n parts touches
        → NoneKept act start n parts
        → plain act start parts n ≡ Ok (parted act start n parts) }
    ensures faults { (act : ℕ → ℕ → Storage → Effect F) (start : Storage) (n parts : ℕ)
        (touches : ℕ → List Spot) (i j : ℕ) (fault : F)
        → Apart act start n parts touches
        → IsLeastKept act start n parts i j fault
        → plain act start parts n ≡ Err fault }
    ensures either { (act : ℕ → ℕ → Storage → Effect F) (start : Storage) (n parts : ℕ)
        → NoneKept act start n parts
        ⊎ ((i : ℕ) × (j : ℕ) × (fault : F) × IsLeastKept act start n parts i j fault) }
{}

/// As far as the plain order comes, each part does there what it does in the parted order.
pub fn parts_agree<F>()
    ensures { (act : ℕ → ℕ → Storage → Effect F) (start : Storage) (n parts : ℕ)
        (touches : ℕ → List Spot) (i j : ℕ) (before m : Storage)
        → Apart act start n parts touches
        → i < n
        → j < parts
        → plain act start parts i ≡ Ok before
        → plain_parts act start i j before ≡ Ok m
        → act i j m ≡ kept act start n i j }
{}
