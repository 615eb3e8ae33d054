//! The first two iterations that interfere.

ghost use Rattle.std.specs.Prelude.{◌≡◌, ℕ, ◌<◌, ◌≤◌, ◌⊎◌, List, Bool};
ghost use Rattle.array_meaning.specs.Touches.{Touch};
ghost use Rattle.array_meaning.specs.Clashes.{first_clash};
ghost use Rattle.nest_clash.specs.FirstClash.{InterfereIn, IsFirstClash};
ghost use Rattle.nest_clash.specs.Visits.{visit, TellsPair};
ghost use Rattle.nest_clash.specs.Scan.{scan};

/// The first clash is the first of all, and there is none exactly where no two iterations interfere.
pub fn first_clashes()
    ensures { (touched : ℕ → List Touch) (n : ℕ) → IsFirstClash touched n (first_clash touched n) }
{}

/// How an object was visited tells its first pair of iterations that interfere, exactly where there is one. The touches of an iteration may come in
/// any order.
pub fn least_pairs()
    ensures { (acts : ℕ → List Bool) (n : ℕ) → TellsPair acts n (visit acts n) }
{}

/// A pass over the objects finds the first clash, where they are in order and each object in which two iterations interfere is among them.
pub fn scans_find()
    ensures { (touched : ℕ → List Touch) (n : ℕ) (name place : ℕ → ℕ) (objects : ℕ)
        → ((o p : ℕ) → o < p → p < objects → (name o < name p) ⊎ ((name o ≡ name p) × (place o ≤ place p)))
        → ((i j x y : ℕ) → j < n → InterfereIn touched i j x y → (o : ℕ) × (o < objects) × (name o ≡ x) × (place o ≡ y))
        → scan touched name place n objects ≡ first_clash touched n }
{}
