//! Laws of the numbers of letters.

ghost use Rattle.std.specs.Prelude.{◌≡◌, ℕ, Some};
ghost use Rattle.std.specs.List.{slice_get};
ghost use Rattle.machine_steps.specs.Agrees.{openings};
ghost use Rattle.machine_steps.specs.Instr.{Instr};
ghost use Rattle.machine_steps.specs.Machine.{Machine};
ghost use Rattle.machine_steps.specs.Node.{FaultValues, Node, node_steps};
ghost use Rattle.stations.specs.Lettered.{IsLettered};

/// Each node at the beginning of a run numbers its letters: whatever moves it makes and whatever it takes in them, what it is to
/// send then is its pair's next letter, and it awaits its pair's next letter where it is to take one.
pub fn nodes_number_letters<C, F>()
    ensures { (faults : FaultValues F) (meaning : C → Instr F) (count : ℕ) (m : Machine C F) (p : ℕ) (a : Node C F)
        → slice_get (openings count m) p ≡ Some a → IsLettered (node_steps faults meaning) count p a }
{}
