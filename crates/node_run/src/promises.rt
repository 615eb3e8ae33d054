//! Laws of runs.

ghost use Rattle.std.specs.Prelude.{◌≡◌, ℕ, ◌<◌, List, None, ◌⊎◌, ◌≤◌, [], ◌==◌, ◌&&◌, not, nat_lt, if◌then◌else◌, ◌∷◌, filter, slice_index_or, ℤ, true, map, pos, length, Some, unwrap_or, Option};
ghost use Rattle.hpf_base.specs.declared.index.Shape.{Shape};
ghost use Rattle.machine_steps.specs.Agrees.{Own, Agree, IsWhole, NodesSegment, NodesRun, IsOver, IsValidCode, IsValidInstr, OpeningsRun, first_own, openings};
ghost use Rattle.machine_steps.specs.Instr.{Instr, Running, Tuples, Outcome};
ghost use Rattle.machine_steps.specs.Machine.{Machine, instr_at, step_by, steps, Kept};
ghost use Rattle.machine_steps.specs.Node.{FaultValues, node_steps, local_read, held_or_received};
ghost use Rattle.std.specs.List.{slice_get, range_with_len};
ghost use Rattle.node_law.specs.NodeSteps.{sent};
ghost use Rattle.node_law.specs.Phases.{Lockstep, all_moves};
ghost use Rattle.node_run.specs.Letters.{holds_nothing, run_exchanges, pair_letters, Carrying, holds, run_holds};
ghost use Rattle.storage.specs.Storage.{Spot, is_same_spot, read, Storage};
ghost use Rattle.machine_steps.specs.Layout.{Layout, sizes, owns_spot, least_owner_of, pieces, size_of, element_index, owned_by, count_passing, piece};
ghost use Rattle.machine_steps.specs.Message.{Part, needs, message, remap_message};
ghost use Rattle.hpf_base.specs.ElementOrder.{elements, product};
ghost use Rattle.mappings.specs.LocalOrder.{local_elements};
ghost use Rattle.mappings.specs.Alignment.{owns, least_owner};
ghost use Rattle.machine_steps.specs.Parted.{AreParts, IsAfter, act_by, kept_after, AreRising};
ghost use Rattle.storage.specs.Parted.{NoneKept, IsLeastKept};
ghost use Rattle.node_run.specs.Coded.{with_code};

/// Nodes that agree with the machine run one instruction, or one step of it, as the machine does: a segment of a
/// lockstep run leads to nodes that agree with the machine's next state.
pub fn nodes_step<C, F>()
    ensures { (faults : FaultValues F) (meaning : C → Instr F) (count n : ℕ) (shapes : List Shape) (m : Machine C F) (own : Own F) (instr : Instr F)
        → 0 < count → m.control.status ≡ Running → Agree faults meaning count m own → IsWhole count shapes m → IsValidInstr count shapes instr
        → instr_at meaning m.code m.control.at ≡ instr
        → NodesSegment faults meaning count n m own (step_by instr m) }
{}

/// Nodes that agree with the machine are phased where its run ends, and the last nodes of their lockstep run agree with
/// its last state.
pub fn nodes_run<C, F>()
    ensures { (faults : FaultValues F) (meaning : C → Instr F) (count made n : ℕ) (shapes : List Shape) (m : Machine C F) (own : Own F)
        → 0 < count → Agree faults meaning count m own → IsValidCode meaning count shapes m.code → IsWhole count shapes m
        → IsOver (steps meaning made m).control.status
        → NodesRun faults meaning count n m own (steps meaning made m) }
{}

/// Nodes that agree with the machine come, in a segment of a lockstep run, to nodes that agree with it after however many of its steps:
/// there all of them stand at its place, with its slots and its layouts.
pub fn nodes_pass<C, F>()
    ensures { (faults : FaultValues F) (meaning : C → Instr F) (count made n : ℕ) (shapes : List Shape) (m : Machine C F) (own : Own F)
        → 0 < count → Agree faults meaning count m own → IsValidCode meaning count shapes m.code → IsWhole count shapes m
        → NodesSegment faults meaning count n m own (steps meaning made m) }
{}

/// The nodes at the beginning of a run agree with the machine.
pub fn openings_agree<C, F>()
    ensures { (faults : FaultValues F) (meaning : C → Instr F) (count : ℕ) (m : Machine C F)
        → m.kept ≡ None → m.substep ≡ 0 → Agree faults meaning count m (first_own count) }
{}

/// The nodes at the beginning of a run are phased where the machine's run ends, and the last nodes of their lockstep run
/// agree with its last state.
pub fn openings_run<C, F>()
    ensures { (faults : FaultValues F) (meaning : C → Instr F) (count made : ℕ) (shapes : List Shape) (m : Machine C F)
        → 0 < count → m.kept ≡ None → m.substep ≡ 0 → IsValidCode meaning count shapes m.code → IsWhole count shapes m
        → IsOver (steps meaning made m).control.status
        → OpeningsRun faults meaning count m (steps meaning made m) }
{}

/// The letters of a pair in the lockstep run of the openings of valid code are exactly those of the phases that the machine's steps
/// say, in order: of each phase in which the one sends to the other there is one, with the number of that phase, the pair's next
/// number, and the values that the exchange of that phase says. There are no others.
pub fn letters_exact<C, F>()
    ensures pairs { (faults : FaultValues F) (meaning : C → Instr F) (count made : ℕ) (shapes : List Shape) (m : Machine C F)
        → m.kept ≡ None → m.substep ≡ 0 → IsValidCode meaning count shapes m.code → IsWhole count shapes m
        → IsOver (steps meaning made m).control.status
        → (run : Lockstep (node_steps faults meaning) (slice_get (openings count m))) (p q : ℕ) → p < count → q < count
        → sent q (all_moves run.phases run.last p) ≡ pair_letters p q 1 1 (run_exchanges faults count meaning made m holds_nothing) }
    ensures others { (faults : FaultValues F) (meaning : C → Instr F) (count : ℕ) (m : Machine C F)
        (run : Lockstep (node_steps faults meaning) (slice_get (openings count m))) (p q : ℕ) → (count ≤ p) ⊎ (count ≤ q)
        → sent q (all_moves run.phases run.last p) ≡ [] }
{}

/// Nodes that agree with the machine come, in a segment of a lockstep run whose phases carry exactly the exchanges of so many of its
/// steps, to nodes that agree with it and have for themselves what these steps say.
pub fn phases_carried<C, F>()
    ensures { (faults : FaultValues F) (meaning : C → Instr F) (count made n : ℕ) (shapes : List Shape) (m : Machine C F) (own : Own F)
        → 0 < count → Agree faults meaning count m own → IsValidCode meaning count shapes m.code → IsWhole count shapes m
        → Carrying faults meaning count n m own (steps meaning made m) (run_holds faults count meaning made m (holds own)) (run_exchanges faults count meaning made m (holds own)) }
{}

/// A message holds exactly the elements that its taker needs and doesn't own and whose least owner sends, each once; in a
/// redistribution, those that its taker owns after and not before and whose least owner before sends.
pub fn message_exact()
    ensures part { (count : ℕ) (layouts : List Layout) (part : Part) (p q : ℕ) (s : Spot)
        → filter (is_same_spot s) (message count layouts part p q)
        ≡ (if nat_lt s.at (slice_index_or (sizes layouts) s.row 0) && (needs part q s && (not (owns_spot layouts q s) && (least_owner_of count layouts s == p))) then s ∷ [] else []) }
    ensures remap { (count : ℕ) (old later : List Layout) (p q : ℕ) (s : Spot)
        → filter (is_same_spot s) (remap_message count old later p q)
        ≡ (if nat_lt s.at (slice_index_or (sizes old) s.row 0) && (owns_spot later q s && (not (owns_spot old q s) && (least_owner_of count old s == p))) then s ∷ [] else []) }
{}

/// Where each node sent the values of its messages, a node that looks up an element that it needs, in its pieces where it owns it and
/// else in what the least owner sent, finds the value of the whole arrays.
pub fn message_read<C, F>()
    ensures { (count : ℕ) (shapes : List Shape) (m : Machine C F) (part : Part) (q : ℕ) (received : List (List ℤ)) → IsWhole count shapes m
        → ((p : ℕ) → p < count → slice_index_or received p [] ≡ map (local_read m.layouts p (pieces m.layouts p m.rows)) (message count m.layouts part p q))
        → (s : Spot) → needs part q s ≡ true
        → held_or_received count m.layouts (λ p. message count m.layouts part p q) q (pieces m.layouts q m.rows) received s ≡ read m.rows s }
{}

/// A node's piece of a row is the values at the positions that it owns, in order; these are the positions of its local elements; and the
/// address of one of them is its place among the local elements.
pub fn pieces_by_elements()
    ensures values { (layout : Layout) (node : ℕ) (row : List ℤ) → length row ≡ size_of layout
        → piece (owned_by layout) node row ≡ map (λ at. slice_index_or row at (pos 0)) (filter (owned_by layout node) (range_with_len 0 (size_of layout))) }
    ensures elements { (layout : Layout) (node : ℕ)
        → map (element_index layout.shape) (filter (owned_by layout node) (range_with_len 0 (size_of layout))) ≡ local_elements layout.mapping layout.shape node }
    ensures addresses { (layout : Layout) (node at : ℕ) → at < size_of layout → owned_by layout node at ≡ true
        → slice_get (local_elements layout.mapping layout.shape node) (count_passing (owned_by layout node) 0 at) ≡ Some (element_index layout.shape at) }
{}

/// Who owns an element of a row is who owns it by the mapping of the row's layout, and its least owner is that of the mapping, where the
/// mapping's grid has as many nodes as there are. Nobody owns an element that isn't there.
pub fn owners_by_mapping()
    ensures owned { (layouts : List Layout) (spot : Spot) (layout : Layout) (node : ℕ) → slice_get layouts spot.row ≡ Some layout → spot.at < size_of layout
        → owns_spot layouts node spot ≡ owns layout.mapping (element_index layout.shape spot.at) node }
    ensures least { (layouts : List Layout) (spot : Spot) (layout : Layout) (count : ℕ) → slice_get layouts spot.row ≡ Some layout → spot.at < size_of layout
        → product layout.mapping.grid ≡ count
        → least_owner_of count layouts spot ≡ unwrap_or (least_owner layout.mapping (element_index layout.shape spot.at)) 0 }
{}

/// So many parallel statements in a row, each with n tuples, leave the rows of the parted order of their acts, and keep what that keeps.
pub fn parts_in_a_row<C, F>()
    ensures { (meaning : C → Instr F) (tuples : ℕ → Tuples F) (left : ℕ → List ℤ → ℕ → Option Spot) (n k : ℕ) (m : Machine C F)
        → m.control.status ≡ Running → m.kept ≡ None → m.parts ≡ 0
        → AreParts meaning tuples left n m.code m.control.at m.control.slots k
        → IsAfter meaning tuples left n m k (steps meaning k m) }
{}

/// What is kept after the parts is nothing where no part keeps a fault, and else the fault with the least key, where the numbers of
/// parts rise after a part that may fault.
pub fn least_of_parts<F>()
    ensures none { (outcome : ℕ → ℕ → Storage → Outcome F) (left : ℕ → ℕ → Option Spot) (start : Storage) (n : ℕ) (number : ℕ → ℕ) (k : ℕ)
        → kept_after outcome left start n number k ≡ None → NoneKept (act_by outcome left) start n k }
    ensures least { (outcome : ℕ → ℕ → Storage → Outcome F) (left : ℕ → ℕ → Option Spot) (start : Storage) (n : ℕ) (number : ℕ → ℕ) (k : ℕ) (l : Kept F)
        → AreRising outcome left number k → kept_after outcome left start n number k ≡ Some l
        → (j : ℕ) × IsLeastKept (act_by outcome left) start n k l.tuple j l.fault × (number j ≡ l.part) }
{}

/// The machine over other texts, each of which means what its instruction meant, makes the same steps, and its code is one that as many
/// nodes can run.
pub fn other_texts<C, D, F>()
    ensures steps { (meaning : C → Instr F) (coded : D → Instr F) (f : C → D) (k : ℕ) (m : Machine C F) → ((c : C) → coded (f c) ≡ meaning c)
        → steps coded k (with_code f m) ≡ with_code f (steps meaning k m) }
    ensures valid { (meaning : C → Instr F) (coded : D → Instr F) (f : C → D) (count : ℕ) (shapes : List Shape) (code : List C) → ((c : C) → coded (f c) ≡ meaning c)
        → IsValidCode meaning count shapes code → IsValidCode coded count shapes (map f code) }
{}
