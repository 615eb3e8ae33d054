//! Laws of strips.

ghost use Rattle.std.specs.Prelude.{◌≡◌, ℕ, ℤ, List, Result, Ok};
ghost use Rattle.array_meaning.specs.Elementals.{Elemental, each, values_over};
ghost use Rattle.array_meaning.specs.Faults.{Cause};
ghost use Rattle.array_meaning.specs.State.{State};
ghost use Rattle.strip_operators.specs.Strips.{IsStrip};
ghost use Rattle.strips.specs.Strips.{space_value};

/// Where each of so many results has a value, these are the results in order, with no fault among them; whatever the tuples are.
pub fn law_of_strips()
    ensures { (tuple : ℕ → List ℤ) (f : ℕ → Result ℤ Cause) (n : ℕ) (vs : List ℤ) → IsStrip f n vs → each tuple f n ≡ Ok vs }
{}

/// So the values by strips are those of the expression over the space.
pub fn law_of_values()
    ensures { (s : State) (ns : List ℕ) (x : Elemental) (n : ℕ) (vs : List ℤ) → IsStrip (space_value s ns x) n vs → values_over s ns x n ≡ Ok vs }
{}
