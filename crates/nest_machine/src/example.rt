//! A small nest on which the law of nests is seen to be met.

ghost use Rattle.std.specs.Prelude.{◌≡◌, ℕ, List, ℤ, pos, [], Bool};
ghost use Rattle.nest_order.specs.Copies.{with_copies};
ghost use Rattle.machine_steps.specs.Machine.{steps};
ghost use Rattle.nest_machine.specs.Counting.{slot, IsCounting};
ghost use Rattle.nest_machine.specs.Body.{TakeSteps};
ghost use Rattle.nest_machine.specs.Trace.{Data};
ghost use Rattle.nest_machine.specs.Stands.{stands, HasAt};
ghost use Rattle.nest_machine.specs.Entries.{nest_entries};
ghost use Rattle.nest_machine.specs.Placed.{IsPlace, PlacedMean, PlacedTexts};
ghost use Rattle.nest_machine.specs.PlacedEntry.{IsPlacedMemory};
ghost use Rattle.nest_machine.specs.PlacedEnds.{IsPlacedFinal};
ghost use Rattle.nest_syntax.specs.Finals.{Lasts};
ghost use Rattle.nest_machine.specs.Example.{everywhere, example_texts, example_counting, example_body, example_finals, example_size, example_layout, example_code, as_it_is};
ghost use Rattle.nest_machine.specs.Example.{example_slots, example_data, example_kinds, example_start, example_place, example_rows, example_indices};
ghost use Rattle.nest_machine.specs.Example.{example_interpretation, example_action, example_condition};

use node_run::least_of_parts;

/// The nest meets the premises of the law.
pub fn example_meets()
    ensures counting { IsCounting example_counting }
    ensures has { HasAt as_it_is example_code everywhere 0 example_code }
    ensures takes { TakeSteps example_counting example_indices example_body }
    ensures mean { PlacedMean example_texts example_interpretation example_action example_condition example_place example_rows example_indices 2 example_slots }
    ensures fit { PlacedTexts example_texts example_size example_layout 2 1 1 example_place example_rows example_indices
        (with_copies example_kinds 2 example_start) 2 2 example_slots }
    ensures place { IsPlace example_place example_rows }
    ensures memory { IsPlacedMemory example_layout example_slots example_place example_rows example_kinds 2 example_start
        (nest_entries example_finals 2 1) example_data }
    ensures scalar { IsPlacedFinal example_texts 2 1 1 2 example_place example_rows example_indices example_kinds example_start example_slots (Lasts 1 3 0) 0 }
{}

/// So the machine comes after the nest, and T is 7.
pub fn example_runs()
    ensures { (k : ℕ) × (slots : List ℤ) × (d : Data Bool)
        × (steps as_it_is k (stands as_it_is example_code (pos 0) [] [] 0 example_slots example_data)
        ≡ stands as_it_is example_code (pos 0) [] [] 19 slots d)
        × (slot slots 0 ≡ pos 7) }
{
    least_of_parts::<bool>();
}
