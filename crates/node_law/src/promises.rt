//! Laws of every order of steps, as functions that do nothing.

ghost use Rattle.std.specs.Prelude.{◌≡◌, ◌≢◌, ℕ, ◌⊎◌, List, [], ◌++◌, Option};
ghost use Rattle.std.specs.List.{slice_get};
ghost use Rattle.hpf_base.specs.declared.node.NodeId.{NodeId};
ghost use Rattle.node_law.specs.NodeSteps.{Move, AreMovesAt, after_at, IsDoneAt, sent, taken, IsPrefix};
ghost use Rattle.node_law.specs.Phases.{Lockstep, all_moves};
ghost use Rattle.node_law.specs.Cores.{start, core_run, made_in, IsFinished, IsEnabled, IsStuck};
ghost use Rattle.node_law.specs.Reached.{ActsAt};

use crate::act::Act;
use crate::node::PhasedNode;

/// The law of prefixes. Let each node of phased nodes make moves, and for every ordered pair let the letters that
/// the target took be a prefix of those that the source made for it. Then each node's moves are a prefix of its
/// moves of the lockstep run.
pub fn law_of_prefixes<N: PhasedNode>()
    ensures { (ns : ℕ → Option N) (run : Lockstep N.steps ns) (made : ℕ → List (Move N.Mail))
        → ((p : ℕ) → AreMovesAt N.steps (ns p) (made p))
        → ((p q : ℕ) → IsPrefix (taken p (made q)) (sent q (made p)))
        → (p : ℕ) → IsPrefix (made p) (all_moves run.phases run.last p) }
{}

/// With the same premises a node that is Done has made all its moves of the lockstep run.
pub fn law_of_ends<N: PhasedNode>()
    ensures { (ns : ℕ → Option N) (run : Lockstep N.steps ns) (made : ℕ → List (Move N.Mail))
        → ((p : ℕ) → AreMovesAt N.steps (ns p) (made p))
        → ((p q : ℕ) → IsPrefix (taken p (made q)) (sent q (made p)))
        → (p : ℕ) → IsDoneAt N.steps (after_at N.steps (ns p) (made p)) → made p ≡ all_moves run.phases run.last p }
{}

/// Phased nodes have one lockstep run: two of them have the same moves.
pub fn one_lockstep<N: PhasedNode>()
    ensures { (ns : ℕ → Option N) (one two : Lockstep N.steps ns)
        → (p : ℕ) → all_moves one.phases one.last p ≡ all_moves two.phases two.last p }
{}

/// Confluence. In a core that phased nodes reach by any choices, each node's moves are a prefix of its moves of the
/// lockstep run, its state is what they lead to, and the queue of a pair holds, in order, the letters that were
/// sent and not yet taken.
pub fn confluence<N: PhasedNode>()
    ensures { (ns : List N) (run : Lockstep N.steps (slice_get ns)) (choices : List ℕ)
        → let made = made_in N.steps (start ns) choices in
        let core = core_run N.steps (start ns) choices in
        ((p : ℕ) → IsPrefix (made p) (all_moves run.phases run.last p))
        × ((p : ℕ) → slice_get core.nodes p ≡ after_at N.steps (slice_get ns p) (made p))
        × ((p q : ℕ) → sent q (made p) ≡ taken p (made q) ++ core.queue p q) }
{}

/// Never stuck. A core that phased nodes reach by any choices is finished, or one of its nodes is enabled.
pub fn never_stuck<N: PhasedNode>()
    ensures enabled { (ns : List N) (run : Lockstep N.steps (slice_get ns)) (choices : List ℕ)
        → let core = core_run N.steps (start ns) choices in
        IsFinished N.steps core ⊎ ((p : ℕ) × IsEnabled N.steps core p) }
    ensures not_stuck { (ns : List N) (run : Lockstep N.steps (slice_get ns)) (choices : List ℕ)
        → ¬ IsStuck N.steps (core_run N.steps (start ns) choices) }
{}

/// No node passes letters to itself. In a core that phased nodes reach by any choices a node is never to send to
/// itself, nor to take from itself, and the queue from a node to itself is empty.
pub fn letters_to_others<N: PhasedNode>()
    ensures sends { (ns : List N) (run : Lockstep N.steps (slice_get ns)) (choices : List ℕ) (p : ℕ) (q : NodeId)
        → ActsAt N.steps (core_run N.steps (start ns) choices).nodes p (Act.Send q) → q.0 ≢ p }
    ensures takes { (ns : List N) (run : Lockstep N.steps (slice_get ns)) (choices : List ℕ) (p : ℕ) (q : NodeId)
        → ActsAt N.steps (core_run N.steps (start ns) choices).nodes p (Act.Take q) → q.0 ≢ p }
    ensures empty { (ns : List N) (run : Lockstep N.steps (slice_get ns)) (choices : List ℕ) (p : ℕ)
        → (core_run N.steps (start ns) choices).queue p p ≡ [] }
{}
